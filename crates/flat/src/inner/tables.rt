// A table as bytes: the two counts, the cells row by row, the lines, the stuck values.
ghost use Rattle.std.specs.Prelude.{◌≡◌, ◌≤◌, length};
ghost use Rattle.flat.specs.Flat.{table_of, lent_table, bytes_of};
ghost use Rattle.flat.specs.Writes.{Lays};

use crate::inner::LENGTH;
use table::{Refusal, Table};

fn table_of(bytes: &[u8]) -> Table
    requires { length bytes.now ≡ 1586 }
    ensures { result ≡ table_of bytes.now }
{
    let mut table = table::empty_table();
    table.tests = usize::from(bytes[0]);
    table.faults = usize::from(bytes[1]);
    table.cells.copy_from_slice(&bytes[2..1466]);
    table.lines.copy_from_slice(&bytes[1466..1526]);
    table.stuck.copy_from_slice(&bytes[1526..1586]);
    table
}

// The table that is lent; one that is not well formed where the length is not a table's.
#[tactic(auto, using(crate::proofs::Given::lent_none, crate::proofs::Given::lent_some))]
pub fn table_in(bytes: &[u8]) -> Table
    ensures { result ≡ lent_table bytes.now }
{
    if bytes.len() != LENGTH {
        return Table {
            tests: 25,
            ..table::empty_table()
        };
    }
    table_of(bytes)
}

// The bytes of the table over the front of the buffer; the place, where it has room.
pub fn written(given: &Table, place: usize, buf: &mut [u8]) -> Result<usize, Refusal>
    requires { (given.now.tests ≤ 24) × (given.now.faults ≤ 60) }
    ensures { Lays place (bytes_of given.now) buf.old result buf.new }
{
    if buf.len() < LENGTH {
        return Err(Refusal::BufferShort);
    }
    buf[0] = given.tests as u8;
    buf[1] = given.faults as u8;
    buf[2..1466].copy_from_slice(&given.cells);
    buf[1466..1526].copy_from_slice(&given.lines);
    buf[1526..1586].copy_from_slice(&given.stuck);
    Ok(place)
}
