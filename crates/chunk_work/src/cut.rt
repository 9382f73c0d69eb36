// Where a level is cut into chunks.
ghost use Rattle.std.specs.Prelude.{◌≡◌, ◌+◌, ◌≤◌, ◌^◌, min};
ghost use Rattle.lists.specs.Counted.{max, div_ceil};

// Four, or as many as there are blocks, and at least one. The counts hang on where a level is cut, and the original cuts it for four
// threads whatever the machine has: so do we, though one thread goes through the chunks in turn.
#[tactic(auto, using(std::proofs::lemmas::Bool::Decides::nat_tests), unfolding(lists::specs::Counted::max))]
fn workers(n: usize) -> usize
    ensures number { result ≡ max 1 (min 4 n) }
    ensures some { 1 ≤ result }
{
    n.clamp(1, 4)
}

// How many blocks a worker has: the last worker may have fewer.
pub fn chunk_size(n: usize) -> usize
    requires { n ≤ 2 ^ 32 }
    ensures { result ≡ div_ceil n (max 1 (min 4 n)) }
{
    let w = workers(n);
    n.div_ceil(w)
}

// The place after a chunk: the last one may be short.
pub fn chunk_end(start: usize, size: usize, n: usize) -> usize
    requires { start ≤ n }
    ensures { result ≡ min (start + size) n }
{
    start.saturating_add(size).min(n)
}
