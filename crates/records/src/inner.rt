// A book's start, and a refusal, which goes back to it.
ghost use Rattle.std.specs.Prelude.{◌≡◌};
ghost use Rattle.records.specs.Step.{refused_at, start};

use crate::{SoFar, Stage, Stepped};
use table::Refusal;

// What has been read at a book's start.
pub fn begin() -> SoFar
    ensures { result ≡ start }
{
    SoFar {
        table: table::empty_table(),
        stage: Stage::Tests,
    }
}

pub fn refuse(why: Refusal, at: usize) -> Stepped
    ensures { result ≡ refused_at why at }
{
    Stepped {
        outcome: Err(why),
        place: at,
        sofar: begin(),
    }
}
