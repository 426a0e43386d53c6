// The calls on a table.
ghost use Rattle.std.specs.Prelude.{◌<◌};

use crate::{case, show};
use flat::inner::answers;
use std::io;
use table::{Classes, Goal, Refusal, Suspects, Table};

fn classes(rt: &impl Print, table: Table) -> io::Result<()> {
    let answer = classes::classify(table);
    show::verdict(rt, &answer)?;
    let classes = answer.unwrap_or(Classes {
        count: 0,
        of: [0; 61],
    });
    show::number(rt, classes.count as u64)?;
    show::number(rt, show::mixed(0, &classes.of))
}

// The calls that take a table, and a goal at most.
pub fn questions(rt: &impl Print, table: Table) -> io::Result<()> {
    show::number(rt, u64::from(table::well_formed(table)))?;
    classes(rt, table)?;
    show::answer(rt, classes::undetectable(table))?;
    show::answer(rt, cover::set_aside(table, Goal::Detect).map(u64::from))?;
    show::answer(rt, cover::set_aside(table, Goal::Diagnose).map(u64::from))?;
    show::answer(rt, cover::essential(table, Goal::Detect).map(u64::from))?;
    show::answer(rt, cover::essential(table, Goal::Diagnose).map(u64::from))
}

// A goal, a cap.
pub fn choose(rt: &impl Print, case: &[u8], table: Table) -> io::Result<()> {
    let goal = answers::goal_of(u64::from(case::byte(case, 0)));
    show::answer(
        rt,
        choice::choose(table, goal, case::set(case, 1)).map(u64::from),
    )
}

// What a call writes to a lent buffer, whose length stands in two bytes of the case, and the byte that fills it behind them.
pub fn lent<F: FnOnce(&mut [u8]) -> Result<usize, Refusal>>(
    rt: &impl Print,
    case: &[u8],
    at: usize,
    call: F,
) -> io::Result<()>
    requires { (at < 900) × F.IsAlwaysCallable call }
{
    let mut space = case::space(case::byte(case, at + 2));
    let n = case::length(case, at, &space);
    let buf = &mut space[..n];
    let answer = call(buf);
    show::answer(rt, answer.map(|n| n as u64))?;
    show::lent(rt, buf)
}

// What a call writes of the table under a set, which stands before what `lent` reads.
pub fn sheet<F: FnOnce(Table, u32, &mut [u8]) -> Result<usize, Refusal>>(
    rt: &impl Print,
    case: &[u8],
    table: Table,
    write: F,
) -> io::Result<()>
    requires { F.IsAlwaysCallable write }
{
    lent(rt, case, 4, |buf| write(table, case::set(case, 0), buf))
}

// A set, the observed outputs.
pub fn suspects(rt: &impl Print, case: &[u8], table: Table) -> io::Result<()> {
    let Some(outputs) = case.get(4..) else {
        return Ok(());
    };
    let answer = suspects::suspects_of(table, case::set(case, 0), outputs);
    show::verdict(rt, &answer)?;
    let suspects = answer.unwrap_or(Suspects {
        count: 0,
        columns: [0; 61],
    });
    show::number(rt, suspects.count as u64)?;
    show::number(rt, show::mixed(0, &suspects.columns))
}
