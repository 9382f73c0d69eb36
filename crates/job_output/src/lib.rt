// The whole job: its lines, one behind the other, in a lent buffer.
#![tactic(auto)]

ghost use Rattle.std.specs.Prelude.{◌≡◌, ◌+◌, ◌≤◌, ◌<◌, ◌^◌, length};
ghost use Rattle.ledger.specs.State.{fresh_ledger};
ghost use Rattle.job_lines.specs.State.{line_room, text_of};
ghost use Rattle.job_rules.specs.Job.{job, most_bytes, program};
ghost use Rattle.job_output.specs.Output.{output_of, output};
ghost use Rattle.job_output.specs.State.{added};

use grid::Refusal;
use job_lines::Line;

// The most bytes that the program reads.
pub const MOST_BYTES: usize = 65536;

// As many bytes as are printed for each byte read, at most: a line has at most Line::LONGEST, and a command that prints one and
// goes on has at least 5.
const PER_BYTE: usize = 48;

// The most bytes that the program prints. A buffer of so many always suffices: what the commands print that go on, and a last
// line.
pub const MOST_OUTPUT: usize = PER_BYTE * MOST_BYTES + Line::LONGEST;

// The line from a place on, and the place after it.
fn add_line(line: Line, out: &mut [u8], place: usize) -> usize
    requires { place + line_room < 2 ^ 64 }
    ensures out_after { output_of result out.new ≡ added place (text_of line) out.old }
    ensures upper_bound { result ≤ place + line_room }
{
    let n = line.len.min(Line::ROOM);
    let text = &line.bytes[..n];
    for (i, byte) in text.iter().enumerate() {
        job_world::put(out, place + i, *byte);
    }
    place + n
}

// At most a step for each byte, and one more: a command takes a byte at least.
#[tactic(auto, using(crate::proofs::Running::under_none, crate::proofs::Running::under_more))]
fn run_steps(bytes: &[u8], out: &mut [u8]) -> usize
    requires { length bytes.now ≤ most_bytes }
    ensures { output_of result out.new ≡ output (job fresh_ledger bytes.now) out.old }
{
    let mut state = job_world::start();
    let mut at: usize = 0;
    let mut count: usize = 0;
    for _ in 0..bytes.len() + 1 {
        let r = job_step::step(bytes, at, state);
        count = add_line(r.line, out, count);
        if r.ended {
            return count;
        }
        state = r.state;
        at = r.next;
    }
    count
}

// What the program prints for the bytes: the number of its bytes, and as many of them in the buffer as fit.
#[tactic(auto, using(crate::proofs::Running::too_long, crate::proofs::Running::job_run))]
pub fn run(bytes: &[u8], out: &mut [u8]) -> usize
    ensures { output_of result out.new ≡ output (program fresh_ledger bytes.now) out.old }
{
    if MOST_BYTES < bytes.len() {
        return add_line(job_lines::refused_line(Refusal::Bytes.number()), out, 0);
    }
    run_steps(bytes, out)
}
