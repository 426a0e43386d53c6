// The sizes and the cap at their edges.
ghost use Rattle.std.specs.Prelude.{◌≡◌, ◌≤◌, length};

use crate::show;
use std::io;
use table::Goal;

// A book of n tests.
fn tests_book(n: usize) -> [u8; 186]
    requires { n ≤ 25 }
    ensures { length result ≡ 186 }
{
    let mut book = [0; 186];
    for i in 0..n {
        book[2 * i] = 0x54;
    }
    book[2 * n] = 0x45;
    book[2 * n + 1] = n as u8;
    book
}

// A book of n faults, on the lines 0, 1, .. stuck at 0.
fn faults_book(n: usize) -> [u8; 186]
    requires { n ≤ 61 }
    ensures { length result ≡ 186 }
{
    let mut book = [0; 186];
    for i in 0..n {
        book[3 * i] = 0x46;
        book[3 * i + 1] = i as u8;
    }
    book[3 * n] = 0x45;
    book[3 * n + 2] = n as u8;
    book
}

pub fn tests(rt: &impl Print, n: usize) -> io::Result<()>
    requires { n ≤ 25 }
{
    show::reading(rt, &book::read_book(&tests_book(n)[..2 * n + 3]))
}

pub fn faults(rt: &impl Print, n: usize) -> io::Result<()>
    requires { n ≤ 61 }
{
    show::reading(rt, &book::read_book(&faults_book(n)[..3 * n + 3]))
}

pub fn caps(rt: &impl Print) -> io::Result<()> {
    let table = book::read_book(b"\x54\x00\x46\x01\x00\x52\x00\x00\x01\x45\x01\x01").table;
    for cap in [0, 1, 24, 25] {
        rt.write_all(b"cap")?;
        show::number(rt, u64::from(cap))?;
        rt.write_all(b" :")?;
        show::tests(rt, choice::choose(table, Goal::Detect, cap))?;
    }
    Ok(())
}
