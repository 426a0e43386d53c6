// Prints numbers, and sums of what is long.
use std::io;
use table::{Refusal, Table};

const DIGITS: &[u8; 16] = b"0123456789abcdef";

pub fn number(rt: &impl Print, n: u64) -> io::Result<()> {
    print!(rt; " {n}")
}

// The sum with one number more.
pub fn mix(sum: u64, n: u64) -> u64 {
    (sum % 2147483647 * 16777619 + n % 2147483647 + 1) % 2147483647
}

// The sum with each of some bytes.
pub fn mixed(sum: u64, bytes: &[u8]) -> u64 {
    bytes.iter().fold(sum, |sum, b| mix(sum, u64::from(*b)))
}

// The sum with every field of a table.
pub fn mixed_table(sum: u64, table: &Table) -> u64 {
    let counts = mix(mix(sum, table.tests as u64), table.faults as u64);
    mixed(
        mixed(mixed(counts, &table.cells), &table.lines),
        &table.stuck,
    )
}

// Prints a table, and gives it back.
pub fn given(rt: &impl Print, table: Table) -> io::Result<Table> {
    number(rt, mixed_table(0, &table))?;
    Ok(table)
}

// The number of an answer: 0 where it is accepted.
pub fn verdict<T>(rt: &impl Print, answer: &Result<T, Refusal>) -> io::Result<()> {
    number(
        rt,
        match answer {
            Ok(_) => 0,
            Err(why) => u64::from(table::number(*why)),
        },
    )
}

// The number of an answer, and its value, 0 where it is refused.
pub fn answer(rt: &impl Print, answer: Result<u64, Refusal>) -> io::Result<()> {
    verdict(rt, &answer)?;
    number(rt, answer.unwrap_or(0))
}

// The digit of a byte's low half.
fn digit(n: u8) -> u8 {
    DIGITS[usize::from(n % 16)]
}

// Prints a lent buffer: its sum, and each of its bytes. A buffer is long, and `{b:02x}` takes four times the
// instructions.
pub fn lent(rt: &impl Print, buf: &[u8]) -> io::Result<()> {
    number(rt, mixed(0, buf))?;
    rt.write_all(b" ")?;
    for b in buf {
        rt.write_all(&[digit(b / 16), digit(*b)])?;
    }
    Ok(())
}
