// Reads a fault book from standard input and prints what it holds.
#![tactic(auto)]

use std::io;

// Prints the text of a book; no text is too long for the page.
fn print_report(rt: &impl Print, book: &[u8]) -> io::Result<()> {
    let mut page = [0u8; 7364];
    match report::report(book, &mut page) {
        Ok(n) => rt.write_all(&page[..n]),
        Err(_) => Ok(()),
    }
}

// The first 5,992 bytes of any input settle the answer.
fn main(rt: HostRuntime) -> io::Result<()> {
    let mut book = [0u8; 5992];
    match input::inner::read_full(&mut rt.stdin(), &mut book) {
        Ok(n) => print_report(&rt, &book[..n]),
        Err(_) => rt.write_all(b"could not read\n"),
    }
}
