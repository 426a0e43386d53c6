// The fault table by value, and the answers of every call.
#![tactic(auto)]

ghost use Rattle.std.specs.Prelude.{◌≡◌};
ghost use Rattle.table.specs.Answers.{number_of};
ghost use Rattle.table.specs.Table.{empty_table};
ghost use Rattle.table.specs.Test.{Tested};

mod fitting;
mod form;
mod goals;
pub mod inner;

pub use fitting::Fitting;
pub use goals::UnknownGoal;

// Column 0 is the healthy card, column f + 1 the card with fault f. The paper fixes the form: the counts, the cells in one array, two
// arrays of labels.
#[derive(Clone, Copy)]
pub struct Table {
    pub tests: usize,
    pub faults: usize,
    pub cells: [u8; 1464],
    pub lines: [u8; 60],
    pub stuck: [u8; 60],
}

#[derive(Clone, Copy, PartialEq, Eq)]
pub enum Goal {
    Detect,
    Diagnose,
}

// Why a book or a call is refused; `number` gives each its number.
#[derive(Clone, Copy, PartialEq, Eq)]
pub enum Refusal {
    UnknownKind,
    BodyCut,
    NoEnd,
    OutOfPlace,
    TooMany,
    StuckValue,
    SameLabel,
    NotInBook,
    NotAfter,
    RepeatsCorrect,
    WrongCounts,
    BytesFollow,
    NotWellFormed,
    UnknownTest,
    CapTooHigh,
    NoneWithinCap,
    BufferShort,
    NotOneEach,
}

#[derive(Clone, Copy)]
pub struct Reading {
    pub verdict: Result<(), Refusal>,
    pub place: usize,
    pub table: Table,
}

// The number of classes, and the class number of each column; zero past the last column, as `classify` promises.
#[derive(Clone, Copy)]
pub struct Classes {
    pub count: usize,
    pub of: [u8; 61],
}

// The number of suspects, and their columns in rising order; zero past the last, as `suspects_of` promises.
#[derive(Clone, Copy)]
pub struct Suspects {
    pub count: usize,
    pub columns: [u8; 61],
}

pub fn empty_table() -> Table
    ensures { result ≡ empty_table }
{
    Table {
        tests: 0,
        faults: 0,
        cells: [0; 1464],
        lines: [0; 60],
        stuck: [0; 60],
    }
}

// The paper's number of a refusal, case by case as the paper lists them.
pub fn number(why: Refusal) -> u8
    ensures { result ≡ number_of why }
{
    match why {
        Refusal::UnknownKind => 1,
        Refusal::BodyCut => 2,
        Refusal::NoEnd => 3,
        Refusal::OutOfPlace => 4,
        Refusal::TooMany => 5,
        Refusal::StuckValue => 6,
        Refusal::SameLabel => 7,
        Refusal::NotInBook => 8,
        Refusal::NotAfter => 9,
        Refusal::RepeatsCorrect => 10,
        Refusal::WrongCounts => 11,
        Refusal::BytesFollow => 12,
        Refusal::NotWellFormed => 20,
        Refusal::UnknownTest => 21,
        Refusal::CapTooHigh => 22,
        Refusal::NoneWithinCap => 23,
        Refusal::BufferShort => 24,
        Refusal::NotOneEach => 25,
    }
}

// Whether some book gives the table.
#[tactic(auto, unfolding(crate::specs::Test::well_formed), using(crate::proofs::Tested::tested_by))]
pub fn well_formed(table: Table) -> bool
    ensures { Tested table result }
{
    table.tests <= 24 && table.faults <= 60 && table.labels_right() && table.rows_right()
}
