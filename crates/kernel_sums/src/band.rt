// The people that a kernel holds, run by run of its rows.
ghost use Rattle.std.specs.Prelude.{◌≡◌};
ghost use Rattle.kernel.specs.Kernel.{kernel_population};
ghost use Rattle.kernel.specs.Requires.{CanSum};
ghost use Rattle.kernel.specs.State.{rows_only};
ghost use Rattle.sums.specs.State.{table_map};

use grid::{Col, Row};
use kernel::Kernel;
use sums::RowBand;
use table::SummedTable;

// The people of the cells that a kernel holds around a column. Rows of equal reach hold the same columns, so that a run of them is summed as
// one band of the table, at the cost of one row. The kernel is lent, since a copy would cost as much as a small circle; its row and radius play
// no part, and nothing is asked of them.
#[tactic(auto, using(crate::proofs::People::people_north, crate::proofs::People::people_all))]
pub fn circle_population(summed: SummedTable<'_>, kernel: &Kernel, col: Col) -> u64
    requires { CanSum summed.table.grid (rows_only kernel.now) col }
    ensures { result ≡ kernel_population (table_map summed.entry.table.grid summed.entry.table.sums.now) kernel.now col }
{
    // No `for`: a turn goes on where its run ends, which the buffer of runs says. A row is a number here, since a run's end is
    // read as one; it indexes by `as`, since no From leads from u32 to usize.
    let mut population: u64 = 0;
    let mut row = kernel.north.0;
    while row < kernel.end {
        let n = u32::from(kernel.reach[row as usize]);
        let next = u32::from(kernel.run[row as usize]);
        let band = RowBand {
            north: Row(row),
            south: Row(next - 1),
        };
        population += summed.band_span(band, col, n - 1);
        row = next;
    }
    population
}
