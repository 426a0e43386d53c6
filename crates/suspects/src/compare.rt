// Each column compared with the observed outputs.
ghost use Rattle.std.specs.Prelude.{◌≡◌, length};
ghost use Rattle.folds.specs.Fold.{count};
ghost use Rattle.sets.specs.Sets.{has};

use lent::Given;
use table::Suspects;

// The outputs observed in the tests of a set, one for each.
#[derive(Clone, Copy)]
pub struct Observed<'a> {
    pub given: &'a Given,
    pub outputs: &'a [u8],
    pub ghost one_each: { length outputs.now ≡ count (has given.now.set) given.now.table.table.tests },
}

impl<'a> Observed<'a> {
    ghost use Rattle.std.specs.Prelude.{◌<◌};
    ghost use Rattle.table.specs.Table.{output_at, columns};
    ghost use Rattle.suspects.specs.Suspects.{suspect, found_under};

    // Whether column c is a suspect.
    fn is_suspect(&self, c: usize) -> bool
        requires { c < 61 }
        ensures { result ≡ suspect (output_at self.now.given.now.table.table) self.now.given.now.table.table.tests self.now.given.now.set self.now.outputs.now c }
    {
        let mut next = 0;
        for t in 0..self.given.table.tests() {
            if self.given.has(t) {
                if self.outputs[next] != self.given.table.output(t, c) {
                    return false;
                }
                next += 1;
            }
        }
        true
    }

    // The suspects among the columns, in rising order.
    pub fn suspects(&self) -> Suspects
        ensures { result ≡ found_under (output_at self.now.given.now.table.table) self.now.given.now.table.table.tests self.now.given.now.set self.now.outputs.now (columns self.now.given.now.table.table) }
    {
        let mut columns = [0; 61];
        let mut count = 0;
        for c in 0..self.given.table.columns() {
            if self.is_suspect(c) {
                columns[count] = c as u8;
                count += 1;
            }
        }
        Suspects { count, columns }
    }
}
