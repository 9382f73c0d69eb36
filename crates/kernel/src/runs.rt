// Where the runs of rows of one reach end.
ghost use Rattle.std.specs.Prelude.{◌≡◌, cond, ◌+◌, ◌<◌, eqb, length};
ghost use Rattle.reach.specs.Reach.{row_places};
ghost use Rattle.reach.specs.State.{Filled};
ghost use Rattle.kernel.specs.State.{run_in};
ghost use Rattle.kernel.specs.Requires.{Outlined};

// Where the run of a row ends, of the reach here and the reach and the run's end of the row below.
fn run_of(here: u8, below: u8, row: u32, to: u32) -> u32
    requires { row < row_places }
    ensures { result ≡ cond (eqb below here) to (row + 1) }
{
    if below == here { to } else { row + 1 }
}

// From the last row touched northward, the end of each row's run.
pub(crate) fn mark(reaches: &[u8], north: u32, end: u32, runs: &mut [u8])
    requires outlined { Outlined reaches.now north end }
    requires runs_len { length runs.old ≡ row_places }
    ensures { Filled (run_in reaches.now) north end runs.old runs.new }
{
    // By `as`: no From leads from u32 to usize, nor to u8, and rows and ends are at most 90.
    let mut to = end;
    let mut below: u8 = 0;
    for row in (north..end).rev() {
        let here = reaches[row as usize];
        to = run_of(here, below, row, to);
        below = here;
        runs[row as usize] = to as u8;
    }
}
