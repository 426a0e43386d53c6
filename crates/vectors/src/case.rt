// Numbers and tables from the bytes of a case; a byte past its end is 0.
ghost use Rattle.std.specs.Prelude.{ℕ, length, min, pos, ◌≡◌, ◌<◌, ◌<ℤ◌, ◌≤◌};

use std::array;
use table::Table;

// Room for a case or a lent buffer, full of one byte.
pub fn space(fill: u8) -> [u8; 8192]
    ensures { 8192 ≡ length result }
{
    [fill; 8192]
}

pub fn byte(case: &[u8], at: usize) -> u8 {
    case.get(at).copied().unwrap_or(0)
}

// The bytes of a number from a place on, the lowest first.
fn bytes<const N: usize>(case: &[u8], at: usize) -> [u8; N]
    requires { at < 2000 }
{
    array::from_fn(|i| byte(case, at + i))
}

// That many bytes, but 0 where it is negative and no more than a buffer has.
pub fn count(bytes: isize, buf: &[u8]) -> usize
    ensures bound { result ≤ length buf.now }
    ensures value { (k : ℕ) → bytes ≡ pos k → result ≡ min k (length buf.now) }
    ensures negative { bytes <ℤ pos 0 → result ≡ 0 }
{
    usize::try_from(bytes).unwrap_or(0).min(buf.len())
}

// A length of two bytes, but no more than a buffer has.
pub fn length(case: &[u8], at: usize, buf: &[u8]) -> usize
    requires { at < 900 }
    ensures { result ≤ length buf.now }
{
    count(u16::from_le_bytes(bytes(case, at)) as isize, buf)
}

// A set or a cap, of four bytes.
pub fn set(case: &[u8], at: usize) -> u32
    requires { at < 900 }
{
    u32::from_le_bytes(bytes(case, at))
}

// A place or a count, of eight bytes.
pub fn number(case: &[u8], at: usize) -> usize
    requires { at < 900 }
{
    u64::from_le_bytes(bytes(case, at)) as usize
}

// A table field by field: 8 bytes for each count, then 1,464 cells row by row, 60 lines and 60 stuck values.
pub fn table(case: &[u8]) -> Table {
    Table {
        tests: number(case, 0),
        faults: number(case, 8),
        cells: bytes(case, 16),
        lines: bytes(case, 1480),
        stuck: bytes(case, 1540),
    }
}
