// The items of a line, each with a space before it.
ghost use Rattle.std.specs.Prelude.{◌≤◌, ◌<◌, ◌≡◌, ◌+◌, ℕ};
ghost use Rattle.items.specs.Items.{in_class, list_text, member_text, members_text, signature_text, spaced, tests_text};
ghost use Rattle.sets.specs.Collect.{CallableBelow, Computes};
ghost use Rattle.sets.specs.Sets.{has};
ghost use Rattle.table.specs.Table.{columns, output_at};
ghost use Rattle.text.specs.Text.{Adds};

use table::Fitting;
use text::Page;

pub fn spaced(page: &mut Page, n: usize)
    ensures { Adds (spaced n) page.old page.new }
{
    page.put(b' ');
    page.decimal(n);
}

// A number for each test of a set.
fn numbers<F: Fn(usize) -> usize>(page: &mut Page, table: &Fitting, set: u32, number: F)
    requires { (t : ℕ) → t < table.now.table.tests → F.pre number t }
    ensures { (f : ℕ → ℕ) → ((t n : ℕ) → t < table.now.table.tests → F.post number t n → n ≡ f t) → Adds (list_text (has set) (λ t. spaced (f t)) table.now.table.tests) page.old page.new }
{
    let tests = table.table.tests;
    if sets::inner::size(set, tests) == 0 {
        page.word(b" none");
        return;
    }
    for t in 0..tests {
        if sets::inner::has(u64::from(set), t) {
            spaced(page, number(t));
        }
    }
}

// The tests of a set.
pub fn tests(page: &mut Page, table: &Fitting, set: u32)
    ensures { Adds (tests_text set table.now.table.tests) page.old page.new }
{
    numbers(page, table, set, |t| t);
}

// The signature of column c under a set.
pub fn signature(page: &mut Page, table: &Fitting, set: u32, c: usize)
    requires { c < 61 }
    ensures { Adds (signature_text (output_at table.now.table) table.now.table.tests set c) page.old page.new }
{
    numbers(page, table, set, |t| usize::from(table.output(t, c)));
}

fn member(page: &mut Page, table: &Fitting, c: usize)
    requires { c < 61 }
    ensures { Adds (member_text table.now.table.lines table.now.table.stuck c) page.old page.new }
{
    if c == 0 {
        page.word(b" good");
        return;
    }
    let (line, stuck) = table.table.label(c - 1);
    spaced(page, usize::from(line));
    page.put(b'/');
    page.decimal(usize::from(stuck));
}

// Whether column c is of class k.
pub fn in_class(of: &[u8; 61], k: usize, c: usize) -> bool
    requires { c < 61 }
    ensures { result ≡ in_class of.now k c }
{
    usize::from(of[c]) == k
}

// The members of class k.
pub fn members(page: &mut Page, table: &Fitting, of: &[u8; 61], k: usize)
    ensures { Adds (members_text table.now.table.lines table.now.table.stuck of.now (columns table.now.table) k) page.old page.new }
{
    for c in 0..table.columns() {
        if in_class(of, k, c) {
            member(page, table, c);
        }
    }
}
