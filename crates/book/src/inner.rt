// The reading of a whole book, whatever makes the steps.
ghost use Rattle.std.specs.Prelude.{◌≡◌};
ghost use Rattle.book.specs.Reading.{read_book};
ghost use Rattle.book.specs.Given.{StepsBy};

use records::{Cursor, Stepped};
use table::Reading;

// Step after step, up to the acceptance or the first refusal. A loop, since each step starts where the one before it ended.
pub fn read_by<'a, F: Fn(Cursor<'a>) -> Stepped>(book: &'a [u8], step: F) -> Reading
    requires callable { F.IsAlwaysCallable step }
    requires steps { StepsBy (F.post step) }
    ensures { result ≡ read_book book.now }
{
    let mut place = 0;
    let mut sofar = crate::begin();
    loop {
        let got = step(Cursor { book, place, sofar });
        let Ok(Some(_)) = got.outcome else {
            return Reading {
                verdict: got.outcome.map(|_| ()),
                place: got.place,
                table: got.sofar.table,
            };
        };
        place = got.place;
        sofar = got.sofar;
    }
}
