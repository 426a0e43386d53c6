// A reader that keeps the lent book and its next place; what has been read so far goes in and comes back beside it.
#![tactic(auto)]

ghost use Rattle.std.specs.Prelude.{◌≡◌};
ghost use Rattle.book.specs.Reading.{read_book};
ghost use Rattle.book.specs.Sound.{record_at};
ghost use Rattle.held_book.specs.Held.{Keeps};

use records::{SoFar, Stepped};
use table::Reading;

#[derive(Clone, Copy)]
pub struct Reader<'a> {
    pub book: &'a [u8],
    pub at: usize,
}

// The reader of a lent book, at its start.
pub fn hold<'a>(book: &'a [u8]) -> Reader<'a>
    ensures { Keeps book.entry 0 result }
{
    Reader { book, at: 0 }
}

// The record at the reader's place, after what has been read so far.
pub fn next<'a>(reader: Reader<'a>, sofar: SoFar) -> Stepped
    ensures { result ≡ record_at reader.entry.book.now reader.entry.at sofar }
{
    book::read_record(reader.book, reader.at, sofar)
}

// The reader of the same book, at another place.
pub fn moved<'a>(reader: Reader<'a>, place: usize) -> Reader<'a>
    ensures { Keeps reader.entry.book place result }
{
    Reader {
        book: reader.book,
        at: place,
    }
}

// What the reader gives at a place of a book. Its parameters are plain: its callers need not know the reader.
pub fn step_held(book: &[u8], place: usize, sofar: SoFar) -> Stepped
    ensures { result ≡ record_at book.now place sofar }
{
    next(moved(hold(book), place), sofar)
}

// The reading of a whole book, record by record.
#[tactic(auto, using(crate::proofs::Onwards::as_step))]
pub fn read_held(book: &[u8]) -> Reading
    ensures { result ≡ read_book book.now }
{
    book::inner::read_by(book, |at| step_held(at.book, at.place, at.sofar))
}
