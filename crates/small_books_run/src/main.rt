// Runs document 01's small books, the sizes at their edges, and the full adder; `stdout` has what the document says of them.
#![tactic(auto)]

mod card;
mod edges;
mod show;

use std::io;

// The short starred books that are accepted, in the document's order.
fn accepted_books(rt: &impl Print) -> io::Result<()> {
    show::book(rt, b"\x45\x00\x00")?;
    show::book(rt, b"\x54\x07\x45\x01\x00")?;
    show::book(rt, b"\x54\x00\x46\x01\x00\x52\x00\x00\x01\x45\x01\x01")?;
    show::book(rt, b"\x54\x00\x46\x01\x00\x45\x01\x01")
}

// The longer starred books, in rows: tests, faults, the responses of a fault, the end.
fn longer_books(rt: &impl Print) -> io::Result<()> {
    show::book(
        rt,
        b"\x54\x00\x54\x00\
        \x46\x01\x00\x46\x02\x00\
        \x52\x00\x00\x01\x52\x01\x00\x01\
        \x52\x00\x01\x01\x52\x01\x01\x02\
        \x45\x02\x02",
    )?;
    show::book(
        rt,
        b"\x54\x00\x54\x00\
        \x46\x01\x00\
        \x52\x00\x00\x01\x52\x01\x00\x01\
        \x45\x02\x01",
    )?;
    show::book(
        rt,
        b"\x54\x00\x54\x00\x54\x00\
        \x46\x01\x00\x46\x02\x00\x46\x03\x00\x46\x04\x00\x46\x05\x00\x46\x06\x00\
        \x52\x00\x00\x01\x52\x01\x00\x01\
        \x52\x00\x01\x01\x52\x01\x01\x01\
        \x52\x01\x02\x01\
        \x52\x00\x03\x01\x52\x02\x03\x01\
        \x52\x00\x04\x01\x52\x02\x04\x01\
        \x52\x02\x05\x01\
        \x45\x03\x06",
    )
}

// The starred books that are refused, and then the others.
fn refused_books(rt: &impl Print) -> io::Result<()> {
    show::book(rt, b"")?;
    show::book(rt, b"\x45\x00")?;
    show::book(rt, b"\x45\x00\x00\x45")?;
    show::book(rt, b"\x46\x01\x00\x54\x00")?;
    show::book(rt, b"\x52\x00\x00\x01")?;
    show::book(rt, b"\x45\x01\x00")?;
    show::book(rt, b"\x46\x01\x02")?;
    show::book(rt, b"\x46\x01")?;
    show::book(rt, b"\x54\x00\x46\x01\x00\x52\x00\x00\x00\x45\x01\x01")
}

fn main(rt: HostRuntime) -> io::Result<()> {
    accepted_books(&rt)?;
    longer_books(&rt)?;
    refused_books(&rt)?;
    edges::tests(&rt, 24)?;
    edges::tests(&rt, 25)?;
    edges::faults(&rt, 60)?;
    edges::faults(&rt, 61)?;
    edges::caps(&rt)?;
    card::full_adder(&rt)
}
