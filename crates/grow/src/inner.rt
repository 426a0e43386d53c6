// What each kind of record adds to the table.
ghost use Rattle.std.specs.Prelude.{◌≡◌, ◌≤◌, ◌<◌};
ghost use Rattle.folds.specs.Fold.{every};
ghost use Rattle.grow.specs.Grow.{with_test, filled, with_fault, with_response, differs};

use table::Table;
use table::inner::{cell, place};

#[tactic(auto, using(table::proofs::Cells::place_below))]
pub fn add_test(table: &mut Table, output: u8)
    requires { table.old.tests < 24 }
    ensures { table.new ≡ with_test table.old output }
{
    table.cells[place(table.tests, 0)] = output;
    table.tests += 1;
}

// The cells with the correct outputs of the tests in a column.
#[tactic(auto, unfolding(crate::specs::Grow::filled), using(table::proofs::Cells::place_below))]
fn filled(cells: [u8; 1464], column: usize, tests: usize) -> [u8; 1464]
    requires { (column < 61) × (tests ≤ 24) }
    ensures { result ≡ filled cells column tests }
{
    let mut next = cells;
    for t in 0..tests {
        next[place(t, column)] = cell(&cells, t, 0);
    }
    next
}

pub fn add_fault(table: &mut Table, line: u8, stuck: u8)
    requires { (table.old.tests ≤ 24) × (table.old.faults < 60) }
    ensures { table.new ≡ with_fault table.old line stuck }
{
    let f = table.faults;
    table.cells = filled(table.cells, f + 1, table.tests);
    table.lines[f] = line;
    table.stuck[f] = stuck;
    table.faults += 1;
}

#[tactic(auto, using(table::proofs::Cells::place_below))]
pub fn add_response(table: &mut Table, test: usize, fault: usize, output: u8)
    requires { (test < 24) × (fault < 60) }
    ensures { table.new ≡ with_response table.old test fault output }
{
    table.cells[place(test, fault + 1)] = output;
}

// Whether fault f has another line or another stuck value.
#[tactic(auto, unfolding(crate::specs::Grow::differs))]
fn differs(table: &Table, line: u8, value: u8, f: usize) -> bool
    requires { f < 60 }
    ensures { result ≡ differs table.now.lines table.now.stuck line value f }
{
    table.label(f) != (line, value)
}

// Whether no fault so far has the line and the stuck value.
pub fn is_new(table: &Table, line: u8, value: u8) -> bool
    requires { table.now.faults ≤ 60 }
    ensures { result ≡ every (differs table.now.lines table.now.stuck line value) table.now.faults }
{
    (0..table.faults).all(|f| differs(table, line, value, f))
}
