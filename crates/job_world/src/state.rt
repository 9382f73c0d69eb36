// The state's map: its arrays filled and changed, and the ledger emptied.
ghost use Rattle.std.specs.Prelude.{◌≡◌, set};
ghost use Rattle.job_world.specs.World.{emptied};
ghost use Rattle.job_world.specs.State.{start_state, grid_state, count_state, cosine_state, angle_state, ledger_state};

use crate::JobState;
use grid::{Cell, Grid, Row};
use job_sizes::AngleIndices;
use ledger::Ledger;

// The state before any command: a grid of no cells, counts and angles of 0, cosines of 1.
pub fn start() -> JobState
    ensures { result ≡ start_state }
{
    JobState {
        begun: false,
        grid: Grid {
            width: 0,
            height: 0,
            origin_lat: 0.0,
            lon_step: 0.0,
            lat_step: 0.0,
        },
        counts: [0; job_sizes::CELLS],
        angles: [0.0; job_sizes::ANGLES],
        cosines: [1.0; job_sizes::ROWS],
        ledger: ledger::fresh(),
    }
}

// The ledger with no entries; its places keep what they hold.
#[tactic(auto, unfolding(crate::specs::World::emptied))]
fn emptied(ledger: Ledger) -> Ledger
    ensures { result ≡ emptied ledger }
{
    Ledger { len: 0, ..ledger }
}

// The state after G: a map with nothing set.
#[tactic(auto, unfolding(crate::specs::State::start_state, crate::specs::State::grid_state))]
pub fn with_grid(ledger: Ledger, grid: Grid) -> JobState
    ensures { result ≡ grid_state ledger grid }
{
    JobState {
        begun: true,
        grid,
        ledger: emptied(ledger),
        ..start()
    }
}

// A value at a place, in an array of a state or in a job's output. A place beyond it holds nothing.
pub fn put<T: Copy>(xs: &mut [T], place: usize, x: T)
    ensures { xs.new ≡ set xs.old place x }
{
    if place < xs.len() {
        xs[place] = x;
    }
}

// C: a map under way whatever the state was: that a job has begun is the caller's test. The ledger is emptied by C, K and A,
// because its circles are those of the map before. Each changes the state in its place, since a copy would cost more than the command.
#[tactic(auto, unfolding(crate::specs::State::count_state, crate::specs::World::emptied))]
pub fn with_count(state: &mut JobState, cell: Cell, count: u32)
    ensures { state.new ≡ count_state state.old cell count }
{
    let place = job_sizes::count_place(state.grid, cell);
    put(&mut state.counts, place, count);
    state.begun = true;
    state.ledger.len = 0;
}

// K.
#[tactic(auto, unfolding(crate::specs::State::cosine_state, crate::specs::World::emptied))]
pub fn with_cosine(state: &mut JobState, row: Row, cosine: f64)
    ensures { state.new ≡ cosine_state state.old row cosine }
{
    put(&mut state.cosines, usize::from(row), cosine);
    state.begun = true;
    state.ledger.len = 0;
}

// A.
pub fn with_angle(state: &mut JobState, at: AngleIndices, angle: f64)
    ensures { state.new ≡ angle_state state.old at.centre at.row at.offset angle }
{
    let place = job_sizes::angle_place(state.grid, at);
    put(&mut state.angles, place, angle);
    state.begun = true;
    state.ledger.len = 0;
}

// R: its ledger is the call's.
#[tactic(auto, unfolding(crate::specs::State::ledger_state))]
pub fn with_ledger(state: &mut JobState, ledger: Ledger)
    ensures { state.new ≡ ledger_state state.old ledger }
{
    state.begun = true;
    state.ledger = ledger;
}
