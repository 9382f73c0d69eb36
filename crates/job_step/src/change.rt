// What each command does to the state. Of two faults of a command the lower number is told: 13 of its bytes, which are read
// before anything is known of it, then 14 of its turn, then 15 of its indices, which only a map under way can judge.
ghost use Rattle.std.specs.Prelude.{◌≡◌, [], true, false};
ghost use Rattle.grid.specs.Refusal.{refusal_number};
ghost use Rattle.job_commands.specs.declared.Command.TheVariants.{SetGrid, SetCount, SetCosine, SetAngle};
ghost use Rattle.job_lines.specs.State.{line_of};
ghost use Rattle.job_rules.specs.State.{refused_in, first_in, later_in};
ghost use Rattle.job_step.specs.State.{settled_in};

use crate::Printed;
use grid::{Cell, Grid, Refusal, Row};
use job_lines::Line;
use job_rules::Applied;
use job_world::JobState;

// A refusal: its line is the last. The state stays as it was before the command, so that a caller who steps through a job
// sees a refused command change nothing.
#[tactic(auto, unfolding(job_rules::specs::State::refused_in))]
pub(crate) fn refuse(state: JobState, refusal: Refusal) -> Applied
    ensures { result ≡ refused_in state (refusal_number refusal) }
{
    let line = job_lines::refused_line(refusal.number());
    Applied {
        state,
        line,
        last: true,
    }
}

// The job goes on, with a line that may be none.
pub(crate) fn go_on(line: Line) -> Printed
    ensures { result ≡ record { line = line; last = false } }
{
    Printed { line, last: false }
}

// The job goes on, with no line.
fn changed() -> Printed
    ensures { result ≡ record { line = line_of []; last = false } }
{
    go_on(job_lines::blank())
}

// The first G: a grid too large is 14; then questions 1 to 3.
#[tactic(auto, using(job_rules::proofs::Commands::grid_large, job_rules::proofs::Commands::grid_refused, job_rules::proofs::Commands::grid_begins))]
pub(crate) fn set_grid(state: &mut JobState, grid: Grid) -> Result<Printed, Refusal>
    ensures { settled_in state.new result ≡ first_in state.old (SetGrid grid) }
{
    if !job_sizes::size_taken(grid) {
        return Err(Refusal::Turn);
    }
    grid_questions::grid_asked(grid)?;
    *state = job_world::with_grid(state.ledger, grid);
    Ok(changed())
}

// C: a cell's count.
#[tactic(auto, using(job_rules::proofs::Commands::count_off, job_rules::proofs::Commands::count_on))]
pub(crate) fn set_count(state: &mut JobState, cell: Cell, count: u32) -> Result<Printed, Refusal>
    ensures { settled_in state.new result ≡ later_in state.old (SetCount cell count) }
{
    let found = job_sizes::cell_on(state.grid, cell).ok_or(Refusal::Index)?;
    job_world::with_count(state, found, count);
    Ok(changed())
}

// K: a row's cosine.
#[tactic(auto, using(job_rules::proofs::Commands::cosine_off, job_rules::proofs::Commands::cosine_on))]
pub(crate) fn set_cosine(state: &mut JobState, row: Row, cosine: f64) -> Result<Printed, Refusal>
    ensures { settled_in state.new result ≡ later_in state.old (SetCosine row cosine) }
{
    let found = state.grid.row(row.0).ok_or(Refusal::Index)?;
    job_world::with_cosine(state, found, cosine);
    Ok(changed())
}

// A: an angle of the sheet.
#[tactic(auto, using(job_rules::proofs::Commands::angle_off, job_rules::proofs::Commands::angle_on_lem))]
pub(crate) fn set_angle(
    state: &mut JobState,
    centre: Row,
    row: Row,
    offset: u32,
    angle: f64,
) -> Result<Printed, Refusal>
    ensures { settled_in state.new result ≡ later_in state.old (SetAngle centre row offset angle) }
{
    let at = job_sizes::angle_on(state.grid, centre, row, offset).ok_or(Refusal::Index)?;
    job_world::with_angle(state, at, angle);
    Ok(changed())
}

// E: no line, and the last command.
pub(crate) fn end() -> Printed
    ensures { result ≡ record { line = line_of []; last = true } }
{
    Printed {
        line: job_lines::blank(),
        last: true,
    }
}
