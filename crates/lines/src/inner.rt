// The lines of the text.
ghost use Rattle.std.specs.Prelude.{◌≤◌, ◌<◌, ◌≡◌};
ghost use Rattle.folds.specs.Fold.{first};
ghost use Rattle.items.specs.Items.{in_class};
ghost use Rattle.lines.specs.Text.{Numbered, class_line, class_lines, newline, refused_text, set_line, set_lines, sizes_line, table_text};
ghost use Rattle.table.specs.Table.{columns};
ghost use Rattle.table.specs.WellFormed.{WellFormed};
ghost use Rattle.text.specs.Text.{Adds};

use items::inner::spaced;
use table::{Classes, Fitting};
use text::Page;

// The sets of tests that the text of a table lists.
#[derive(Clone, Copy)]
pub struct Sets {
    pub aside: u32,
    pub essential: u32,
    pub detect: u32,
    pub diagnose: u32,
}

fn end(page: &mut Page)
    ensures { Adds newline page.old page.new }
{
    page.put(b'\n');
}

pub fn refused(page: &mut Page, number: usize, place: usize)
    ensures { Adds (refused_text number place) page.old page.new }
{
    page.word(b"refused");
    spaced(page, number);
    page.word(b" at");
    spaced(page, place);
    end(page);
}

fn sizes(page: &mut Page, tests: usize, faults: usize, classes: usize)
    ensures { Adds (sizes_line tests faults classes) page.old page.new }
{
    page.word(b"tests");
    spaced(page, tests);
    page.word(b" faults");
    spaced(page, faults);
    page.word(b" classes");
    spaced(page, classes);
    end(page);
}

// A word and the tests of a set.
fn set(page: &mut Page, table: &Fitting, word: &[u8], set: u32)
    ensures { Adds (set_line word.now set table.now.table.tests) page.old page.new }
{
    page.word(word);
    items::inner::tests(page, table, set);
    end(page);
}

// The lowest column of class k, and the number of columns where it has none.
fn lowest_in(of: &[u8; 61], columns: usize, k: usize) -> usize
    requires { columns ≤ 61 }
    ensures { result ≡ first (in_class of.now k) columns }
{
    (0..columns)
        .find(|c| items::inner::in_class(of, k, *c))
        .unwrap_or(columns)
}

// Class k: its signature under a set, and its members.
fn class(page: &mut Page, table: &Fitting, of: &[u8; 61], set: u32, k: usize)
    requires { first (in_class of.now k) (columns table.now.table) < columns table.now.table }
    ensures { Adds (class_line table.now.table of.now set k) page.old page.new }
{
    let lowest = lowest_in(of, table.columns(), k);
    page.word(b"class");
    spaced(page, k);
    page.word(b" :");
    items::inner::signature(page, table, set, lowest);
    page.word(b" :");
    items::inner::members(page, table, of, k);
    end(page);
}

fn classes(page: &mut Page, table: &Fitting, classed: &Classes, set: u32)
    requires { Numbered table.now.table classed.now.of classed.now.count }
    ensures { Adds (class_lines table.now.table classed.now.of set classed.now.count) page.old page.new }
{
    for k in 0..classed.count {
        class(page, table, &classed.of, set, k);
    }
}

fn four_sets(page: &mut Page, table: &Fitting, sets: Sets)
    ensures { Adds (set_lines table.now.table.tests sets.aside sets.essential sets.detect sets.diagnose) page.old page.new }
{
    set(page, table, b"aside", sets.aside);
    set(page, table, b"essential", sets.essential);
    set(page, table, b"detect", sets.detect);
    set(page, table, b"diagnose", sets.diagnose);
}

// The whole text of a well-formed table.
pub fn table(page: &mut Page, table: &Fitting, sets: Sets)
    requires { WellFormed table.now.table }
    ensures { Adds (table_text table.now.table sets.aside sets.essential sets.detect sets.diagnose) page.old page.new }
{
    let classed = classes::inner::numbered(table);
    sizes(page, table.tests(), table.table.faults, classed.count);
    four_sets(page, table, sets);
    classes(page, table, &classed, sets.diagnose);
}
