// The calls on a book.
ghost use Rattle.std.specs.Prelude.{◌≤◌, length};

use crate::show::mix;
use crate::{calls, case, show};
use records::{Record, SoFar, Stage, Stepped};
use std::io;
use table::{Reading, Refusal, Table};

fn reading(rt: &impl Print, reading: &Reading) -> io::Result<()> {
    show::verdict(rt, &reading.verdict)?;
    show::number(rt, reading.place as u64)?;
    show::number(rt, show::mixed_table(0, &reading.table))
}

// A whole book, by both readers; gives the table that was read.
pub fn whole(rt: &impl Print, case: &[u8]) -> io::Result<Table> {
    let read = book::read_book(case);
    reading(rt, &read)?;
    reading(rt, &held_book::read_held(case))?;
    Ok(read.table)
}

fn mixed_record(record: Record) -> u64 {
    match record {
        Record::Test(output) => show::mixed(0, &[0x54, output]),
        Record::Fault(line, stuck) => show::mixed(0, &[0x46, line, stuck]),
        Record::Response(test, fault, output) => show::mixed(0, &[0x52, test, fault, output]),
        Record::End(tests, faults) => show::mixed(0, &[0x45, tests, faults]),
    }
}

fn mixed_outcome(outcome: Result<Option<Record>, Refusal>) -> u64 {
    match outcome {
        Ok(Some(record)) => mixed_record(record),
        Ok(None) => mix(0, 0),
        Err(why) => mix(0, u64::from(table::number(why))),
    }
}

fn mixed_stage(sum: u64, stage: Stage) -> u64 {
    match stage {
        Stage::Tests => mix(sum, 0),
        Stage::Faults => mix(sum, 1),
        Stage::Responses(fault, test) => mix(mix(mix(sum, 2), fault as u64), test as u64),
        Stage::Ended => mix(sum, 3),
    }
}

// The sum of all that a step gives.
fn step_sum(step: &Stepped) -> u64 {
    let sum = mix(mixed_outcome(step.outcome), step.place as u64);
    show::mixed_table(mixed_stage(sum, step.sofar.stage), &step.sofar.table)
}

// A given record prints 100, an accepted book 0.
fn code(outcome: Result<Option<Record>, Refusal>) -> u64 {
    match outcome {
        Ok(Some(_)) => 100,
        Ok(None) => 0,
        Err(why) => u64::from(table::number(why)),
    }
}

// One record, by both readers; gives what the first says.
fn step(rt: &impl Print, book: &[u8], place: usize, sofar: SoFar) -> io::Result<Stepped> {
    let got = book::read_record(book, place, sofar);
    show::number(rt, code(got.outcome))?;
    show::number(rt, got.place as u64)?;
    show::number(rt, step_sum(&got))?;
    show::number(rt, step_sum(&held_book::step_held(book, place, sofar)))?;
    Ok(got)
}

// A book record by record from its start.
pub fn records(rt: &impl Print, case: &[u8]) -> io::Result<()> {
    let mut place = 0;
    let mut sofar = book::begin();
    for _ in 0..2000 {
        let got = step(rt, case, place, sofar)?;
        let Ok(Some(_)) = got.outcome else {
            break;
        };
        place = got.place;
        sofar = got.sofar;
    }
    Ok(())
}

fn stage(code: u8, fault: usize, test: usize) -> Stage {
    match code {
        0 => Stage::Tests,
        1 => Stage::Faults,
        2 => Stage::Responses(fault, test),
        _ => Stage::Ended,
    }
}

// One record after a reading so far: a place, the last fault and test, the stage, the book; its table is the one at hand.
pub fn record(rt: &impl Print, case: &[u8], table: Table) -> io::Result<()> {
    let Some(book) = case.get(25..) else {
        return Ok(());
    };
    let stage = stage(
        case::byte(case, 24),
        case::number(case, 8),
        case::number(case, 16),
    );
    step(rt, book, case::number(case, 0), SoFar { table, stage })?;
    Ok(())
}

// The lent buffer's length, the byte that fills it, a book.
pub fn text(rt: &impl Print, case: &[u8]) -> io::Result<()> {
    let Some(book) = case.get(3..) else {
        return Ok(());
    };
    calls::lent(rt, case, 0, |buf| report::report(book, buf))
}
