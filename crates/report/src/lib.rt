// The text that pick prints.
#![tactic(auto)]

ghost use Rattle.std.specs.Prelude.{◌≡◌};
ghost use Rattle.report.specs.Answer.{IsTableText, IsText, Paged, ReportIs};
ghost use Rattle.table.specs.WellFormed.{WellFormed};

use lines::inner::Sets;
use table::{Fitting, Goal, Refusal, Table};
use text::Page;

// The text of a table that the reader gave.
fn table_page(page: &mut Page, table: Table)
    requires { WellFormed table }
    ensures { Paged (IsTableText table) page.old page.new }
{
    let fitting = Fitting { table };
    let sets = Sets {
        aside: cover::set_aside(table, Goal::Diagnose).unwrap_or(0),
        essential: cover::essential(table, Goal::Diagnose).unwrap_or(0),
        detect: choice::choose(table, Goal::Detect, 24).unwrap_or(0),
        diagnose: choice::choose(table, Goal::Diagnose, 24).unwrap_or(0),
    };
    lines::inner::table(page, &fitting, sets);
}

// The text of a book.
fn page_of(page: &mut Page, book: &[u8])
    ensures { Paged (IsText book.now) page.old page.new }
{
    let reading = book::read_book(book);
    match reading.verdict {
        Ok(()) => table_page(page, reading.table),
        Err(why) => {
            let number = usize::from(table::number(why));
            lines::inner::refused(page, number, reading.place);
        }
    }
}

// Writes the text of a book to a lent buffer. No text is longer than 7,364 bytes.
pub fn report(book: &[u8], buf: &mut [u8]) -> Result<usize, Refusal>
    ensures { ReportIs book.now buf.old result buf.new }
{
    let mut page = Page::new();
    page_of(&mut page, book);
    lent::inner::laid(page.written(), buf)
}
