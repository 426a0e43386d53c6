// The reader of a fault book: a cursor over its records, with what has been read so far by value.
#![tactic(auto)]

ghost use Rattle.std.specs.Prelude.{◌≡◌};
ghost use Rattle.records.specs.Step.{start};
ghost use Rattle.book.specs.Reading.{read_book};
ghost use Rattle.book.specs.Sound.{record_at};

use records::{Cursor, SoFar, Stepped};
use table::{Reading, Refusal};

pub mod inner;
mod sound;

// What has been read at a book's start.
pub fn begin() -> SoFar
    ensures { result ≡ start }
{
    records::inner::begin()
}

// The record at a place of the book, after what has been read so far.
#[tactic(auto, unfolding(records::specs::Step::first_of, records::specs::Step::step_at, crate::specs::Sound::call_rule, crate::specs::Sound::record_at))]
pub fn read_record(book: &[u8], place: usize, sofar: SoFar) -> Stepped
    ensures { result ≡ record_at book.now place sofar }
{
    if !sound::is_sound(&sofar) || book.len() < place {
        return records::inner::refuse(Refusal::NotWellFormed, place);
    }
    Cursor { book, place, sofar }.step()
}

// The reading of a whole book.
pub fn read_book(book: &[u8]) -> Reading
    ensures { result ≡ read_book book.now }
{
    inner::read_by(book, |cursor| cursor.step())
}
