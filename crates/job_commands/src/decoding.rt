// Commands from bytes. Decoding looks at no state: what a command may do is judged when it is applied.
ghost use Rattle.std.specs.Prelude.{◌≡◌, ◌+◌, ◌≤◌, length, drop};
ghost use Rattle.job_commands.specs.Command.{set_grid_of, set_count_of, set_cosine_of, set_angle_of, most_of, least_of};
ghost use Rattle.job_commands.specs.Command.{decode_as, decode};
ghost use Rattle.job_commands.specs.State.{decoded_in};

use crate::bytes::{bytes_at, float_at};
use crate::{Command, Decoded};
use grid::{Cell, Col, Grid, Row};

// Each command by its operands.
fn set_grid(operands: &[u8; 26]) -> Command
    ensures { result ≡ set_grid_of operands.now }
{
    Command::SetGrid(Grid {
        width: u32::from(operands[0]),
        height: u32::from(operands[1]),
        origin_lat: float_at(operands, 2),
        lon_step: float_at(operands, 10),
        lat_step: float_at(operands, 18),
    })
}

fn set_count(operands: &[u8; 6]) -> Command
    ensures { result ≡ set_count_of operands.now }
{
    Command::SetCount {
        cell: Cell {
            row: Row(u32::from(operands[0])),
            col: Col(u32::from(operands[1])),
        },
        count: u32::from_le_bytes(bytes_at(operands, 2)),
    }
}

fn set_cosine(operands: &[u8; 9]) -> Command
    ensures { result ≡ set_cosine_of operands.now }
{
    Command::SetCosine {
        row: Row(u32::from(operands[0])),
        cosine: float_at(operands, 1),
    }
}

fn set_angle(operands: &[u8; 11]) -> Command
    ensures { result ≡ set_angle_of operands.now }
{
    Command::SetAngle {
        centre: Row(u32::from(operands[0])),
        row: Row(u32::from(operands[1])),
        offset: u32::from(operands[2]),
        angle: float_at(operands, 3),
    }
}

fn most(operands: &[u8; 4]) -> Command
    ensures { result ≡ most_of operands.now }
{
    Command::Most {
        spacing: u32::from(u16::from_le_bytes(bytes_at(operands, 0))),
        km: u32::from(u16::from_le_bytes(bytes_at(operands, 2))),
    }
}

fn least(operands: &[u8; 10]) -> Command
    ensures { result ≡ least_of operands.now }
{
    Command::Least {
        spacing: u32::from(u16::from_le_bytes(bytes_at(operands, 0))),
        share: float_at(operands, 2),
    }
}

// By the letter; an unknown one is no command. Nor are bytes that end before the operands do: what is missing is not taken for
// zeros. E ends the bytes as it ends the job.
#[tactic(auto, using(crate::proofs::Operands::operands_cut), unfolding(crate::specs::Command::decode_as))]
fn decode_as(letter: u8, bytes: &[u8], from: usize) -> Option<Decoded>
    requires { from ≤ length bytes.now }
    ensures { result ≡ decoded_in bytes.now (decode_as letter (drop from bytes.now)) }
{
    let rest = &bytes[from..];
    let (command, size) = match letter {
        b'G' => (set_grid(rest.first_chunk()?), 26),
        b'C' => (set_count(rest.first_chunk()?), 6),
        b'K' => (set_cosine(rest.first_chunk()?), 9),
        b'A' => (set_angle(rest.first_chunk()?), 11),
        b'M' => (most(rest.first_chunk()?), 4),
        b'R' => (least(rest.first_chunk()?), 10),
        b'E' if rest.is_empty() => (Command::End, 0),
        _ => return None,
    };
    Some(Decoded {
        command,
        next: from + size,
    })
}

// The command at a place, and the place after it.
pub fn decode(bytes: &[u8], at: usize) -> Option<Decoded>
    ensures { result ≡ decoded_in bytes.now (decode (drop at bytes.now)) }
{
    decode_as(*bytes.get(at)?, bytes, at + 1)
}
