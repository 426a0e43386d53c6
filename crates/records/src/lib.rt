// The records of a fault book: what each kind gives, or why it is refused.
#![tactic(auto)]

ghost use Rattle.std.specs.Prelude.{◌≡◌, ltb, eqb};
ghost use Rattle.records.specs.Step.{rank_of, not_after};

use table::{Refusal, Table};

mod cursor;
pub mod inner;

pub use cursor::Cursor;

// How far the groups of a book have been read; the fault and the test of the last response.
#[derive(Clone, Copy)]
pub enum Stage {
    Tests,
    Faults,
    Responses(usize, usize),
    Ended,
}

impl Stage {
    fn is_past_tests(self) -> bool
        ensures { result ≡ ltb 0 (rank_of self) }
    {
        !matches!(self, Stage::Tests)
    }

    fn is_past_faults(self) -> bool
        ensures { result ≡ ltb 1 (rank_of self) }
    {
        matches!(self, Stage::Responses(_, _) | Stage::Ended)
    }

    fn has_ended(self) -> bool
        ensures { result ≡ eqb (rank_of self) 3 }
    {
        matches!(self, Stage::Ended)
    }

    // Whether a response of a fault to a test is not after the one before it.
    fn bars(self, fault: usize, test: usize) -> bool
        ensures { result ≡ not_after self fault test }
    {
        matches!(self, Stage::Responses(f, t) if (fault, test) <= (f, t))
    }
}

#[derive(Clone, Copy)]
pub struct SoFar {
    pub table: Table,
    pub stage: Stage,
}

// A test's correct output; a fault's line and stuck value; a response's test, fault and output; the end's two counts.
#[derive(Clone, Copy)]
pub enum Record {
    Test(u8),
    Fault(u8, u8),
    Response(u8, u8, u8),
    End(u8, u8),
}

// A record, or none where the book is accepted; the next place or the refusal's, and what has been read then.
#[derive(Clone, Copy)]
pub struct Stepped {
    pub outcome: Result<Option<Record>, Refusal>,
    pub place: usize,
    pub sofar: SoFar,
}
