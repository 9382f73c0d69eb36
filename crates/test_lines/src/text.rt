// A list as bytes: its file.
ghost use Rattle.std.specs.Prelude.{◌≡◌, ◌≤◌, IfOk, IfSome, take, vec_len};

use std::alloc::Global;
use std::io::Read;
use std::rt::Files;
use std::{fs, io};

// The reader's bytes, as many as are asked for; fewer only at its end.
fn first_bytes<R: Read + Drop>(alloc: Global, reader: R, most: u64) -> io::Result<Vec<u8>>
    ensures { IfOk result (λ v. IfSome (R.remaining reader) (λ xs. v.items ≡ take most xs)) }
{
    let mut bytes = Vec::new(alloc);
    reader.take(most).read_to_end(&mut bytes)?;
    Ok(bytes)
}

// The file's bytes, as many as a list may have: one more is read, so that a longer list is told from it. A list that is cut is
// told by a printed line, by which the program prints something else than it must. By `as`: no From leads from usize to u64.
pub fn read<R: Files + Print + AllocGlobal>(rt: &R, name: &str, most: usize) -> io::Result<Vec<u8>>
    ensures { IfOk result (λ list. vec_len list ≤ most) }
{
    let file = fs::open(rt, name)?;
    let mut list = first_bytes(rt.alloc(), file, (most as u64).saturating_add(1))?;
    if most < list.len() {
        list.truncate(most);
        println!(rt; "list too long")?;
    }
    Ok(list)
}
