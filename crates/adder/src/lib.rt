// The full adder of document 004, Figure 1: its responses, built in, and its table.
#![tactic(auto)]

ghost use Rattle.std.specs.Prelude.{◌≡◌, ◌<◌};
ghost use Rattle.adder.specs.Adder.{adder_table, answered, correct_output, differing, row_filled, rows_filled, same};

use table::Table;

// Test, fault and output, where the output differs from the correct one.
#[derive(Clone, Copy)]
pub struct Answer(pub u8, pub u8, pub u8);

const CORRECT: [u8; 8] = [0, 2, 2, 1, 2, 1, 1, 3];

// In the book's order: by fault, then by test.
const ANSWERS: [Answer; 36] = [
    Answer(0, 0, 2),
    Answer(1, 0, 1),
    Answer(6, 0, 3),
    Answer(7, 0, 1),
    Answer(0, 1, 1),
    Answer(1, 1, 3),
    Answer(2, 1, 3),
    Answer(4, 1, 3),
    Answer(0, 2, 2),
    Answer(3, 2, 3),
    Answer(5, 2, 3),
    Answer(6, 2, 3),
    Answer(0, 3, 1),
    Answer(1, 3, 3),
    Answer(2, 3, 3),
    Answer(4, 3, 3),
    Answer(0, 4, 1),
    Answer(1, 4, 3),
    Answer(2, 4, 3),
    Answer(4, 4, 3),
    Answer(2, 5, 0),
    Answer(3, 5, 2),
    Answer(4, 5, 0),
    Answer(5, 5, 2),
    Answer(6, 6, 0),
    Answer(7, 6, 2),
    Answer(1, 7, 0),
    Answer(2, 7, 0),
    Answer(4, 7, 0),
    Answer(7, 7, 1),
    Answer(3, 8, 0),
    Answer(5, 8, 0),
    Answer(3, 9, 0),
    Answer(5, 9, 0),
    Answer(6, 9, 0),
    Answer(7, 9, 2),
];

// One output in every column of test t.
fn fill_row(cells: &mut [u8; 1464], t: usize, output: u8)
    requires { t < 24 }
    ensures { cells.new ≡ row_filled (same output) t 11 cells.old }
{
    for c in 0..11 {
        cells[table::inner::place(t, c)] = output;
    }
}

// The correct outputs in every column.
fn correct_cells() -> [u8; 1464]
    ensures { result ≡ rows_filled correct_output 8 }
{
    let mut cells = [0; 1464];
    for t in 0..8 {
        fill_row(&mut cells, t, CORRECT[t]);
    }
    cells
}

// The answers are exactly those that differ.
fn answers() -> [Answer; 36]
    ensures { result ≡ differing }
{
    ANSWERS
}

// The correct outputs with the 36 answers over them.
fn adder_cells() -> [u8; 1464]
    ensures { result ≡ answered 36 }
{
    let mut cells = correct_cells();
    for Answer(t, f, output) in answers() {
        cells[table::inner::place(usize::from(t), usize::from(f) + 1)] = output;
    }
    cells
}

pub fn full_adder() -> Table
    ensures { result ≡ adder_table }
{
    let mut lines = [0; 60];
    let mut stuck = [0; 60];
    for f in 0..10 {
        lines[f] = (f % 5 + 1) as u8;
        stuck[f] = u8::from(f < 5);
    }
    Table {
        tests: 8,
        faults: 10,
        cells: adder_cells(),
        lines,
        stuck,
    }
}
