// The rows of the sheet, one for each class: its witnesses with the classes above it.
ghost use Rattle.std.specs.Prelude.{◌≡◌, ◌≤◌, ◌<◌, length};
ghost use Rattle.folds.specs.Fold.{count, onto};
ghost use Rattle.table.specs.Table.{output_at, columns};
ghost use Rattle.terms.specs.Columns.{lowest};
ghost use Rattle.terms.specs.Terms.{class_count};
ghost use Rattle.sets.specs.Collect.{set_of};
ghost use Rattle.witness.specs.Witness.{separates, witness_of, above, above_in, witnesses, sheet_of};

use lent::Given;

// Whether test t is in the set and separates the columns a and b.
#[tactic(auto, unfolding(crate::specs::Witness::separates, terms::specs::Columns::agrees))]
fn separates(given: &Given, a: usize, b: usize, t: usize) -> bool
    requires { (a < 61) × (b < 61) × (t < 24) }
    ensures { result ≡ separates (output_at given.now.table.table) given.now.set a b t }
{
    given.has(t) && given.table.output(t, a) != given.table.output(t, b)
}

// The lowest test of the set that separates the columns a and b, or 255.
fn witness(given: &Given, a: usize, b: usize) -> u8
    requires { (a < 61) × (b < 61) }
    ensures { result ≡ witness_of (output_at given.now.table.table) given.now.table.table.tests given.now.set a b }
{
    match (0..given.table.tests()).find(|t| separates(given, a, b, *t)) {
        Some(t) => t as u8,
        None => 255,
    }
}

// Whether column b is one of lows, the lowest columns, and above column a.
#[tactic(auto, unfolding(crate::specs::Witness::above_in))]
fn above(lows: u64, a: usize, b: usize) -> bool
    requires { b < 64 }
    ensures { result ≡ above_in lows a b }
{
    a < b && sets::inner::has(lows, b)
}

// Writes the witnesses of column a's class with each one above it to a row of their number.
fn write_row(given: &Given, lows: u64, a: usize, row: &mut [u8])
    requires { (a < 61) × (lows ≡ set_of (lowest (output_at given.now.table.table) given.now.table.table.tests) (columns given.now.table.table)) × (length row.old ≡ count (above (output_at given.now.table.table) given.now.table.table.tests a) (columns given.now.table.table)) }
    ensures { row.new ≡ witnesses (output_at given.now.table.table) given.now.table.table.tests given.now.set (columns given.now.table.table) a }
{
    lent::inner::gather(
        given.table.columns(),
        |b| above(lows, a, b),
        |b| witness(given, a, b),
        row,
    );
}

// Writes the row of each of the k classes to its own part of the buffer, by ranges as the dictionary does.
pub fn write_sheet(given: &Given, k: usize, buf: &mut [u8])
    requires { (k ≡ class_count given.now.table.table) × (length (sheet_of given.now.table.table given.now.set) ≤ length buf.old) }
    ensures { buf.new ≡ onto (sheet_of given.now.table.table given.now.set) buf.old }
{
    let lows = classes::inner::lowest_set(&given.table);
    let mut left = k;
    let mut at = 0;
    for c in 0..given.table.columns() {
        if sets::inner::has(lows, c) {
            left -= 1;
            write_row(given, lows, c, &mut buf[at..at + left]);
            at += left;
        }
    }
}
