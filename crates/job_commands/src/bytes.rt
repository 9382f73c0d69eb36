// Numbers at a place of a command's operands, the least byte first.
ghost use Rattle.std.specs.Prelude.{◌≡◌, ◌+◌, ◌≤◌, ◌<◌, length, take, drop};
ghost use Rattle.job_commands.specs.Command.{float};

// So many bytes, of which `from_le_bytes` makes a number.
pub(crate) fn bytes_at<const N: usize>(bytes: &[u8], at: usize) -> [u8; N]
    requires { at + N ≤ length bytes.now }
    ensures { result ≡ take N (drop at bytes.now) }
{
    *bytes[at..].first_chunk().unwrap()
}

// The float whose bits eight bytes are.
pub(crate) fn float_at(bytes: &[u8], at: usize) -> f64
    requires { at + 8 ≤ length bytes.now }
    ensures { result ≡ float at bytes.now }
{
    floats::from_bits(u64::from_le_bytes(bytes_at(bytes, at)))
}
