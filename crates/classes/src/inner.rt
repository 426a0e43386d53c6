// Which columns are alike, and the lowest of each class, for the crates above.
ghost use Rattle.std.specs.Prelude.{◌≡◌, ◌<◌};
ghost use Rattle.sets.specs.Collect.{set_of};
ghost use Rattle.table.specs.Table.{output_at, columns};
ghost use Rattle.terms.specs.Columns.{agrees, alike, apart, lowest, lowest_of};
ghost use Rattle.terms.specs.Terms.{class_count};

pub use crate::columns::numbered;
use table::Fitting;

// Whether no test separates the columns a and b.
pub fn alike(table: &Fitting, a: usize, b: usize) -> bool
    requires { (a < 61) × (b < 61) }
    ensures { result ≡ alike (output_at table.now.table) table.now.table.tests a b }
{
    (0..table.tests()).all(|t| table.output(t, a) == table.output(t, b))
}

// Whether column c is the lowest of its class.
pub fn lowest(table: &Fitting, c: usize) -> bool
    requires { c < 61 }
    ensures { result ≡ lowest (output_at table.now.table) table.now.table.tests c }
{
    (0..c).all(|b| !alike(table, c, b))
}

// The lowest column of c's class.
pub fn lowest_of(table: &Fitting, c: usize) -> usize
    requires { c < 61 }
    ensures { result ≡ lowest_of (output_at table.now.table) table.now.table.tests c }
{
    (0..c).find(|b| alike(table, c, *b)).unwrap_or(c)
}

// How many classes the columns form.
pub fn class_count(table: &Fitting) -> usize
    ensures { result ≡ class_count table.now.table }
{
    (0..table.columns()).filter(|c| lowest(table, *c)).count()
}

// The set of the columns that are the lowest of their class: bit c for column c.
pub fn lowest_set(table: &Fitting) -> u64
    ensures { result ≡ set_of (lowest (output_at table.now.table) table.now.table.tests) (columns table.now.table) }
{
    sets::inner::set_of(table.columns(), |c| lowest(table, c))
}
