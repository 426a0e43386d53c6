// Where a cell lies, for the crates above.
ghost use Rattle.std.specs.Prelude.{◌≡◌, ◌<◌};
ghost use Rattle.table.specs.Table.{place_of, cell_at};

// The place of the output of test t in column c: the one function that knows how the cells lie.
pub fn place(t: usize, c: usize) -> usize
    requires { (t < 24) × (c < 61) }
    ensures { result ≡ place_of t c }
{
    t * 61 + c
}

// The output of test t in column c.
pub fn cell(cells: &[u8; 1464], t: usize, c: usize) -> u8
    requires { (t < 24) × (c < 61) }
    ensures { result ≡ cell_at cells.now t c }
{
    let at = place(t, c);
    cells[at]
}
