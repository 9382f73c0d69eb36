// Runs the job on standard input, and prints its lines. Only reading and writing are assumed: what lies between is one call, and the output
// buffer takes all that any job prints.
#![tactic(auto)]

ghost use Rattle.std.specs.Prelude.{◌≡◌, ◌+◌, IfOk, IfSome, take, vec_len};
ghost use Rattle.job_rules.specs.Job.{most_bytes};
ghost use Rattle.job_output.specs.Lines.{most_output};

use std::alloc::{AllocError, Global};
use std::io;
use std::io::Read;

// A byte more than a job may have, so that a longer one is told from it. By `as`: no From leads from usize to u64.
fn input_buffer<R: Read + Drop>(alloc: Global, reader: R) -> io::Result<Vec<u8>>
    ensures { IfOk result (λ v. IfSome (R.remaining reader) (λ xs. v.items ≡ take (most_bytes + 1) xs)) }
{
    let mut input = Vec::new(alloc);
    reader
        .take(job_output::MOST_BYTES as u64 + 1)
        .read_to_end(&mut input)?;
    Ok(input)
}

// As many bytes as a job may print.
fn output_buffer(alloc: Global) -> Result<Vec<u8>, AllocError>
    ensures { IfOk result (λ v. vec_len v ≡ most_output) }
{
    Ok(vec![in alloc; 0u8; job_output::MOST_OUTPUT]?)
}

fn main(rt: HostRuntime) -> io::Result<()> {
    let input = input_buffer(rt.alloc(), rt.reader())?;
    let mut printed = output_buffer(rt.alloc())?;
    let count = job_output::run(&input, &mut printed);
    rt.write_all(&printed[..count])
}
