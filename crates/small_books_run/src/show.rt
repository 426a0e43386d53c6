// What a book gives, in lines.
use std::io;
use table::{Goal, Reading, Refusal, Table};

pub fn number(rt: &impl Print, n: u64) -> io::Result<()> {
    print!(rt; " {n}")
}

pub fn end(rt: &impl Print) -> io::Result<()> {
    rt.write_all(b"\n")
}

// The tests of a set.
pub fn set(rt: &impl Print, set: u32) -> io::Result<()> {
    if set == 0 {
        return rt.write_all(b" none");
    }
    for t in 0..24 {
        if sets::inner::has(u64::from(set), t) {
            number(rt, t as u64)?;
        }
    }
    Ok(())
}

pub fn bytes(rt: &impl Print, bytes: &[u8]) -> io::Result<()> {
    for b in bytes {
        number(rt, u64::from(*b))?;
    }
    Ok(())
}

pub fn refusal(rt: &impl Print, why: Refusal) -> io::Result<()> {
    rt.write_all(b" refused")?;
    number(rt, u64::from(table::number(why)))
}

pub fn tests(rt: &impl Print, answer: Result<u32, Refusal>) -> io::Result<()> {
    match answer {
        Ok(tests) => set(rt, tests)?,
        Err(why) => refusal(rt, why)?,
    }
    end(rt)
}

// The number of classes, the choices, and the set-aside and essential tests for diagnose.
pub fn card(rt: &impl Print, table: Table) -> io::Result<()> {
    rt.write_all(b"classes")?;
    match classes::classify(table) {
        Ok(classes) => number(rt, classes.count as u64)?,
        Err(_) => number(rt, 0)?,
    }
    rt.write_all(b"\ndetect")?;
    tests(rt, choice::choose(table, Goal::Detect, 24))?;
    rt.write_all(b"diagnose")?;
    tests(rt, choice::choose(table, Goal::Diagnose, 24))?;
    rt.write_all(b"aside")?;
    tests(rt, cover::set_aside(table, Goal::Diagnose))?;
    rt.write_all(b"essential")?;
    tests(rt, cover::essential(table, Goal::Diagnose))
}

// Whether a reading was accepted, and its place.
pub fn reading(rt: &impl Print, reading: &Reading) -> io::Result<()> {
    rt.write_all(b"book")?;
    match reading.verdict {
        Ok(()) => rt.write_all(b" accepted")?,
        Err(why) => refusal(rt, why)?,
    }
    rt.write_all(b" at")?;
    number(rt, reading.place as u64)?;
    end(rt)
}

// A book's reading, and its table where it is accepted.
pub fn book(rt: &impl Print, bytes: &[u8]) -> io::Result<()> {
    let read = book::read_book(bytes);
    reading(rt, &read)?;
    match read.verdict {
        Ok(()) => card(rt, read.table),
        Err(_) => Ok(()),
    }
}
