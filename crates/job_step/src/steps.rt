// One step of a job: the command at a place, decoded and applied.
ghost use Rattle.std.specs.Prelude.{◌≡◌};
ghost use Rattle.job_rules.specs.State.{first_in, later_in, applied_in, stepped_to, stepped_in};
ghost use Rattle.job_step.specs.State.{settled_in};

use crate::{Printed, calls, change};
use grid::Refusal;
use job_commands::Command;
use job_rules::{Applied, StepResult};
use job_world::JobState;

// The first command: G, and 14 for any other.
#[tactic(auto, unfolding(job_rules::specs::State::done_in, job_rules::specs::Apply::first))]
fn first(state: &mut JobState, command: Command) -> Result<Printed, Refusal>
    ensures { settled_in state.new result ≡ first_in state.old command }
{
    match command {
        Command::SetGrid(grid) => change::set_grid(state, grid),
        _ => Err(Refusal::Turn),
    }
}

// A command after G, by the function of its letter; a second G is 14.
#[tactic(auto, unfolding(job_rules::specs::State::done_in, job_rules::specs::State::command_state, job_rules::specs::Apply::in_world))]
fn later(state: &mut JobState, command: Command) -> Result<Printed, Refusal>
    ensures { settled_in state.new result ≡ later_in state.old command }
{
    match command {
        Command::SetGrid(_) => Err(Refusal::Turn),
        Command::SetCount { cell, count } => change::set_count(state, cell, count),
        Command::SetCosine { row, cosine } => change::set_cosine(state, row, cosine),
        Command::SetAngle {
            centre,
            row,
            offset,
            angle,
        } => change::set_angle(state, centre, row, offset, angle),
        Command::Most { spacing, km } => calls::run_most(state, spacing, km),
        Command::Least { spacing, share } => calls::run_least(state, spacing, share),
        Command::End => Ok(change::end()),
    }
}

// The command, in its turn.
#[tactic(auto, unfolding(job_rules::specs::State::applied_in, job_rules::specs::Apply::apply, job_world::specs::State::state_of))]
pub fn apply(mut state: JobState, command: Command) -> Applied
    ensures { result ≡ applied_in state command }
{
    let result = if state.begun {
        later(&mut state, command)
    } else {
        first(&mut state, command)
    };
    match result {
        Ok(printed) => Applied {
            state,
            line: printed.line,
            last: printed.last,
        },
        Err(refusal) => change::refuse(state, refusal),
    }
}

// What a command gave, with the place after it.
#[tactic(auto, unfolding(job_rules::specs::State::stepped_to))]
fn stepped(done: Applied, next: usize) -> StepResult
    ensures { result ≡ stepped_to next done }
{
    StepResult {
        state: done.state,
        line: done.line,
        next,
        ended: done.last,
    }
}

// The step from a state at a place of the job's bytes.
#[tactic(auto, unfolding(job_rules::specs::State::stepped_in, job_rules::specs::State::stepped_by))]
pub fn step(bytes: &[u8], at: usize, state: JobState) -> StepResult
    ensures { result ≡ stepped_in bytes.now at state }
{
    match job_commands::decode(bytes, at) {
        Some(decoded) => stepped(apply(state, decoded.command), decoded.next),
        None => stepped(change::refuse(state, Refusal::Bytes), at),
    }
}
