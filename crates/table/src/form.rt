// The clauses of a well-formed table, each as a test.
ghost use Rattle.std.specs.Prelude.{◌≡◌, ◌≤◌, ◌<◌};
ghost use Rattle.folds.specs.Fold.{every};
ghost use Rattle.table.specs.Table.{line_of, stuck_of};
ghost use Rattle.table.specs.Test.{differ, fresh, label_right, cell_right, row_right};

use crate::Table;

impl Table {
    // The line and the stuck value of fault f.
    pub fn label(&self, f: usize) -> (u8, u8)
        requires { f < 60 }
        ensures { result ≡ (line_of self.now f, stuck_of self.now f) }
    {
        (self.lines[f], self.stuck[f])
    }

    // Whether the faults f and g differ in line or value.
    #[tactic(auto, unfolding(crate::specs::Test::differ))]
    fn is_other(&self, f: usize, g: usize) -> bool
        requires { (f < 60) × (g < 60) }
        ensures { result ≡ differ self.now.lines self.now.stuck f g }
    {
        self.label(f) != self.label(g)
    }

    // Whether fault f differs from every earlier one.
    fn is_fresh(&self, f: usize) -> bool
        requires { f < 60 }
        ensures { result ≡ fresh self.now.lines self.now.stuck f }
    {
        (0..f).all(|g| self.is_other(f, g))
    }

    // Whether the label f is a new fault's, with a stuck value of 0 or 1; or zero, where f is no fault.
    #[tactic(auto, unfolding(crate::specs::Test::label_right))]
    fn is_label_right(&self, f: usize) -> bool
        requires { f < 60 }
        ensures { result ≡ label_right self.now.lines self.now.stuck self.now.faults f }
    {
        if self.faults <= f {
            return self.lines[f] == 0 && self.stuck[f] == 0;
        }
        self.stuck[f] <= 1 && self.is_fresh(f)
    }

    pub(crate) fn labels_right(&self) -> bool
        ensures { result ≡ every (label_right self.now.lines self.now.stuck self.now.faults) 60 }
    {
        (0..60).all(|f| self.is_label_right(f))
    }

    // Whether the cell of test t in column c is used, or zero.
    #[tactic(auto, unfolding(crate::specs::Test::cell_right))]
    fn is_cell_right(&self, t: usize, c: usize) -> bool
        requires { (t < 24) × (c < 61) }
        ensures { result ≡ cell_right self.now.cells self.now.tests self.now.faults t c }
    {
        (t < self.tests && c <= self.faults) || crate::inner::cell(&self.cells, t, c) == 0
    }

    fn is_row_right(&self, t: usize) -> bool
        requires { t < 24 }
        ensures { result ≡ row_right self.now.cells self.now.tests self.now.faults t }
    {
        (0..61).all(|c| self.is_cell_right(t, c))
    }

    pub(crate) fn rows_right(&self) -> bool
        ensures { result ≡ every (row_right self.now.cells self.now.tests self.now.faults) 24 }
    {
        (0..24).all(|t| self.is_row_right(t))
    }
}
