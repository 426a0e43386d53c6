// The full adder: its sheets under the diagnose choice.
use crate::show;
use std::io;
use table::{Goal, Refusal, Table};

fn written(rt: &impl Print, answer: Result<usize, Refusal>) -> io::Result<()> {
    match answer {
        Ok(n) => show::number(rt, n as u64),
        Err(why) => show::refusal(rt, why),
    }
}

// A row of the dictionary, and the suspects of its outputs.
#[tactic(auto, using(suspects::proofs::Few::few_found))]
fn row(rt: &impl Print, table: Table, set: u32, outputs: &[u8]) -> io::Result<()> {
    rt.write_all(b"row")?;
    show::bytes(rt, outputs)?;
    rt.write_all(b" :")?;
    if let Ok(suspects) = suspects::suspects_of(table, set, outputs) {
        show::bytes(rt, &suspects.columns[..suspects.count])?;
    }
    show::end(rt)
}

// The nine rows of three outputs, and the witness sheet.
fn sheets(rt: &impl Print, table: Table, set: u32) -> io::Result<()> {
    let mut sheet = [0; 27];
    rt.write_all(b"dictionary")?;
    written(rt, dictionary::dictionary(table, set, &mut sheet))?;
    show::end(rt)?;
    for outputs in sheet.chunks_exact(3) {
        row(rt, table, set, outputs)?;
    }
    let mut witnesses = [0; 36];
    rt.write_all(b"witness sheet")?;
    written(rt, witness::witness_sheet(table, set, &mut witnesses))?;
    rt.write_all(b" :")?;
    show::bytes(rt, &witnesses)?;
    show::end(rt)
}

pub fn full_adder(rt: &impl Print) -> io::Result<()> {
    rt.write_all(b"full adder\n")?;
    let table = adder::full_adder();
    show::card(rt, table)?;
    rt.write_all(b"class of each column")?;
    if let Ok(classes) = classes::classify(table) {
        show::bytes(rt, &classes.of[..11])?;
    }
    show::end(rt)?;
    match choice::choose(table, Goal::Diagnose, 24) {
        Ok(set) => sheets(rt, table, set),
        Err(why) => show::refusal(rt, why),
    }
}
