// A well-formed table and a set of its tests: what a call is given.
ghost use Rattle.std.specs.Prelude.{◌≡◌, true};
ghost use Rattle.sets.specs.Sets.{within};
ghost use Rattle.table.specs.Test.{well_formed};

use table::{Fitting, Refusal, Table};

#[derive(Clone, Copy)]
pub struct Given {
    pub table: Fitting,
    pub set: u32,
    pub ghost formed: { well_formed table.table ≡ true },
    pub ghost known: { within set table.table.tests ≡ true },
}

impl Given {
    ghost use Rattle.std.specs.Prelude.{◌<◌};
    ghost use Rattle.folds.specs.Fold.{count};
    ghost use Rattle.sets.specs.Sets.{has};
    ghost use Rattle.lent.specs.Given.{GivenOf};

    pub fn of(table: Table, set: u32) -> Result<Given, Refusal>
        ensures { GivenOf table set result }
    {
        let table = Fitting::of(table)?;
        if sets::inner::within(set, table.tests()) {
            Ok(Given { table, set })
        } else {
            Err(Refusal::UnknownTest)
        }
    }

    // Whether test t is in the set. By 32 bits, since the 64 of `sets::inner::has` cost two instructions more a cell.
    #[tactic(auto, using(sets::proofs::Bits::has_shift))]
    pub fn has(&self, t: usize) -> bool
        requires { t < 24 }
        ensures { result ≡ has self.now.set t }
    {
        (self.set >> t) % 2 == 1
    }

    // How many tests the set has.
    pub fn size(&self) -> usize
        ensures { result ≡ count (has self.now.set) self.now.table.table.tests }
    {
        sets::inner::size(self.set, self.table.tests())
    }
}
