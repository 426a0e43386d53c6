// The dictionary: one row of outputs for each class, written to a lent buffer.
#![tactic(auto)]

ghost use Rattle.std.specs.Prelude.{◌≡◌, ◌≤◌, ◌<◌, length};
ghost use Rattle.folds.specs.Fold.{count, onto};
ghost use Rattle.sets.specs.Sets.{has};
ghost use Rattle.terms.specs.Terms.{signature};
ghost use Rattle.lent.specs.Lent.{set_number, WritesOnto};
ghost use Rattle.dictionary.specs.Dictionary.{dictionary_of};

use lent::Given;
use table::{Refusal, Table};

// Writes the signature of column c to a row of its length.
fn write_row(given: &Given, c: usize, row: &mut [u8])
    requires { (c < 61) × (length row.old ≡ count (has given.now.set) given.now.table.table.tests) }
    ensures { row.new ≡ signature given.now.table.table given.now.set c }
{
    lent::inner::gather(
        given.table.tests(),
        |t| given.has(t),
        |t| given.table.output(t, c),
        row,
    );
}

// Writes the row of each class to its own part of the buffer; n is how many tests the set has. By ranges, since after
// `chunks_exact_mut` a proof knows the length of a part and not its bytes.
fn write_rows(given: &Given, n: usize, buf: &mut [u8])
    requires { (n ≡ count (has given.now.set) given.now.table.table.tests) × (length (dictionary_of given.now.table.table given.now.set) ≤ length buf.old) }
    ensures { buf.new ≡ onto (dictionary_of given.now.table.table given.now.set) buf.old }
{
    let mut at = 0;
    for c in 0..given.table.columns() {
        if classes::inner::lowest(&given.table, c) {
            write_row(given, c, &mut buf[at..at + n]);
            at += n;
        }
    }
}

// Writes the dictionary of a table under a set of tests.
#[tactic(auto, unfolding(lent::specs::Lent::set_number, lent::specs::Lent::room_number))]
pub fn dictionary(table: Table, set: u32, buf: &mut [u8]) -> Result<usize, Refusal>
    ensures { WritesOnto (set_number table set) (dictionary_of table set) buf.old result buf.new }
{
    let given = Given::of(table, set)?;
    let n = given.size();
    let bytes = classes::inner::class_count(&given.table) * n;
    if buf.len() < bytes {
        return Err(Refusal::BufferShort);
    }
    write_rows(&given, n, buf);
    Ok(bytes)
}
