// The rules of a job: what each command gives, what a step gives, and all lines of a job. They are definitions with their laws; `job_step` has the code.
#![tactic(auto)]

use job_lines::Line;
use job_world::JobState;

// What a command gives: the state after it, its line, and whether it is the last.
#[derive(Clone, Copy)]
pub struct Applied {
    pub state: JobState,
    pub line: Line,
    pub last: bool,
}

// What a step gives: the same, and the place of the byte after its command.
#[derive(Clone, Copy)]
pub struct StepResult {
    pub state: JobState,
    pub line: Line,
    pub next: usize,
    pub ended: bool,
}
