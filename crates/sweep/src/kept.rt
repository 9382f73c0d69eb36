// A wide kernel that stays in place from block to block of a chunk.
ghost use Rattle.std.specs.Prelude.{◌≡◌};
ghost use Rattle.blocks.specs.Block.{Rectangle};
ghost use Rattle.bounds.specs.State.{wide_kernel};
ghost use Rattle.chunk_work.specs.State.{no_shape};
ghost use Rattle.grid.specs.Map.{globe_lent};
ghost use Rattle.levels.specs.State.{Serves};

use blocks::Block;
use kernel::Kernel;
use levels::SummedMap;

// A kernel with the shape of the blocks whose wide kernel it is.
#[derive(Clone, Copy)]
pub(crate) struct Kept {
    pub(crate) kernel: Kernel,
    pub(crate) shape: Block,
}

impl Kept {
    // A kernel that serves no block.
    pub(crate) fn of_no_shape(kernel: Kernel) -> Kept
        ensures { result ≡ record { kernel = kernel; shape = no_shape } }
    {
        Kept {
            kernel,
            shape: chunk_work::no_shape(),
        }
    }

    // Makes it the wide kernel of a block: it stays where the block has the shape that it serves, and is built anew otherwise.
    pub(crate) fn serve(&mut self, map: &SummedMap<'_>, km: f64, block: Block)
        requires rectangle { Rectangle map.now.globe.grid block }
        requires serves { Serves map.now.globe.grid map.now.globe.angles.now map.now.globe.cosines.now km self.old.shape self.old.kernel }
        ensures own { self.new.kernel ≡ wide_kernel (globe_lent map.now.globe) km block }
        ensures serves { Serves map.now.globe.grid map.now.globe.angles.now map.now.globe.cosines.now km self.new.shape self.new.kernel }
    {
        if !blocks::same_shape(self.shape, block) {
            self.kernel = bounds::wide_kernel(&map.globe, km, block);
            self.shape = block;
        }
    }
}
