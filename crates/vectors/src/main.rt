// Runs every exported call on the cases of the file data/cases, and prints the answers with the state of the lent memory.
#![tactic(auto)]

mod books;
mod calls;
mod case;
mod show;

use std::fs::File;
use std::io;
use std::io::Read;
use table::Table;

// A case that asks something of the table at hand.
fn ask(rt: &impl Print, command: u8, case: &[u8], table: Table) -> io::Result<()> {
    match command {
        b'C' => calls::choose(rt, case, table),
        b'D' => calls::sheet(rt, case, table, dictionary::dictionary),
        b'O' => books::text(rt, case),
        b'P' => books::records(rt, case),
        b'Q' => calls::questions(rt, table),
        b'R' => books::record(rt, case, table),
        b'S' => calls::suspects(rt, case, table),
        b'W' => calls::sheet(rt, case, table, witness::witness_sheet),
        _ => Ok(()),
    }
}

// One case, with the table at hand; gives the table that is at hand then.
fn run(rt: &impl Print, command: u8, case: &[u8], table: Table) -> io::Result<Table> {
    match command {
        b'A' => show::given(rt, adder::full_adder()),
        b'B' => books::whole(rt, case),
        b'E' => show::given(rt, table::empty_table()),
        b'F' => show::given(rt, case::table(case)),
        _ => {
            ask(rt, command, case, table)?;
            Ok(table)
        }
    }
}

// Reads a case to its room, and runs it.
fn next_case(
    rt: &impl Print,
    file: &mut impl Read,
    command: u8,
    case: &mut [u8],
    table: Table,
) -> io::Result<Table> {
    input::inner::read_full(file, case)?;
    rt.write_all(&[command])?;
    let next = run(rt, command, case, table)?;
    rt.write_all(b"\n")?;
    Ok(next)
}

// One case by its head: a command, and its length in two bytes.
fn headed(rt: &impl Print, file: &mut impl Read, head: [u8; 3], table: Table) -> io::Result<Table> {
    let mut space = case::space(0);
    let n = case::length(&head, 1, &space);
    next_case(rt, file, head[0], &mut space[..n], table)
}

// The cases one after the other.
fn all_cases(rt: &impl Print, file: &mut impl Read) -> io::Result<()> {
    let mut table = table::empty_table();
    for _ in 0..10000 {
        let mut head = [0u8; 3];
        if input::inner::read_full(file, &mut head)? < 3 {
            return Ok(());
        }
        table = headed(rt, file, head, table)?;
    }
    Ok(())
}

fn main(rt: HostRuntime) -> io::Result<()> {
    match File::open(&rt, "cases") {
        Ok(mut file) => all_cases(&rt, &mut file),
        Err(why) => eprintln!(rt; "cases: {why}"),
    }
}
