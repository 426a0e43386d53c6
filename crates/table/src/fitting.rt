// A table whose counts are within the sizes: what the functions that take it need, and no more.
ghost use Rattle.std.specs.Prelude.{◌≤◌};

use crate::{Refusal, Table};

#[derive(Clone, Copy)]
pub struct Fitting {
    pub table: Table,
    pub ghost tests_fit: { table.tests ≤ 24 },
    pub ghost faults_fit: { table.faults ≤ 60 },
}

impl Fitting {
    ghost use Rattle.std.specs.Prelude.{◌≡◌, ◌<◌};
    ghost use Rattle.table.specs.Table.{columns, output_at};
    ghost use Rattle.table.specs.Fitting.{FittingOf};

    // The table, where it is well formed.
    pub fn of(table: Table) -> Result<Fitting, Refusal>
        ensures { FittingOf table result }
    {
        if crate::well_formed(table) {
            Ok(Fitting { table })
        } else {
            Err(Refusal::NotWellFormed)
        }
    }

    pub fn tests(&self) -> usize
        ensures { result ≡ self.now.table.tests }
    {
        self.table.tests
    }

    pub fn columns(&self) -> usize
        ensures { result ≡ columns self.now.table }
    {
        self.table.faults + 1
    }

    // The output of test t in column c.
    pub fn output(&self, t: usize, c: usize) -> u8
        requires { (t < 24) × (c < 61) }
        ensures { result ≡ output_at self.now.table t c }
    {
        crate::inner::cell(&self.table.cells, t, c)
    }
}
