// What the two calls give for the columns of a well-formed table.
ghost use Rattle.std.specs.Prelude.{◌≡◌};
ghost use Rattle.sets.specs.Collect.{set_of};
ghost use Rattle.table.specs.Table.{output_at};
ghost use Rattle.classes.specs.Classes.{classes_in};
ghost use Rattle.classes.specs.Undetectable.{undetected};

use table::{Classes, Fitting};

// The number of classes and the class number of each column: a column with a lower one in its class has that one's number.
pub fn numbered(table: &Fitting) -> Classes
    ensures { result ≡ classes_in table.now.table }
{
    let mut of = [0; 61];
    let mut next: u8 = 0;
    for c in 0..table.columns() {
        let low = crate::inner::lowest_of(table, c);
        if low < c {
            of[c] = of[low];
        } else {
            of[c] = next;
            next += 1;
        }
    }
    Classes {
        count: usize::from(next),
        of,
    }
}

// The set of the faults that no test separates from the healthy card.
#[tactic(auto, unfolding(crate::specs::Undetectable::undetected))]
pub fn undetected_set(table: &Fitting) -> u64
    ensures { result ≡ set_of (undetected (output_at table.now.table) table.now.table.tests) table.now.table.faults }
{
    sets::inner::set_of(table.table.faults, |f| crate::inner::alike(table, 0, f + 1))
}
