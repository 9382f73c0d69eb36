// The words that a call is lent.
ghost use Rattle.std.specs.Prelude.{◌≡◌, IfOk, replicate};

use std::alloc::{AllocError, Global};

// The words lent for the sums and the two level buffers.
#[derive(Drop)]
pub struct Buffers {
    pub sums: Vec<u64>,
    pub current: Vec<u64>,
    pub following: Vec<u64>,
}

impl Buffers {
    // So many words of each, all one value.
    pub fn new(alloc: Global, word: u64, sums: usize, level: usize) -> Result<Buffers, AllocError>
        ensures sums { IfOk result (λ b. b.sums.items ≡ replicate sums word) }
        ensures current { IfOk result (λ b. b.current.items ≡ replicate level word) }
        ensures following { IfOk result (λ b. b.following.items ≡ replicate level word) }
    {
        let sums = vec![in alloc; word; sums]?;
        let current = vec![in alloc; word; level]?;
        let following = vec![in alloc; word; level]?;
        Ok(Buffers {
            sums,
            current,
            following,
        })
    }
}
