// The cursor over a book: what each kind of record gives, or why it is refused.
ghost use Rattle.std.specs.Prelude.{◌≡◌, ◌≤◌, ◌<◌, length};
ghost use Rattle.records.specs.Step.{BodyOf, step_at, edge_rule, test_rule, fault_rule, response_rule, end_rule, rule_at};

use crate::inner::refuse;
use crate::{Record, SoFar, Stage, Stepped};
use table::Refusal;

// A place of a book, after what has been read so far, whose counts are within the sizes.
#[derive(Clone, Copy)]
pub struct Cursor<'a> {
    pub book: &'a [u8],
    pub place: usize,
    pub sofar: SoFar,
    pub ghost tests_fit: { sofar.table.tests ≤ 24 },
    pub ghost faults_fit: { sofar.table.faults ≤ 60 },
}

impl<'a> Cursor<'a> {
    ghost use Rattle.records.specs.Moves.{GivesBy, MovesBy};

    // The bytes after the kind byte.
    fn body<const N: usize>(&self) -> Result<[u8; N], Refusal>
        requires { self.now.place < length self.now.book.now }
        ensures { BodyOf self.now.book.now self.now.place N result }
    {
        self.book[self.place + 1..]
            .first_chunk()
            .copied()
            .ok_or(Refusal::BodyCut)
    }

    // The book stops at a record's edge, or its end record has been read.
    #[tactic(auto, unfolding(crate::specs::Step::checked, crate::specs::Step::edge_rule))]
    fn at_edge(&self) -> Result<Option<Record>, Refusal>
        ensures { MovesBy (edge_rule self.now.book.now self.now.place self.now.sofar) self.now self.now result }
    {
        if !self.sofar.stage.has_ended() {
            return Err(Refusal::NoEnd);
        }
        if self.place < self.book.len() {
            return Err(Refusal::BytesFollow);
        }
        Ok(None)
    }

    #[tactic(auto, unfolding(crate::specs::Step::checked, crate::specs::Step::test_rule))]
    fn test_record(&mut self) -> Result<Record, Refusal>
        requires { self.old.place < length self.old.book.now }
        ensures { GivesBy (test_rule self.old.book.now self.old.place self.old.sofar) self.old self.new result }
    {
        let [output] = self.body::<1>()?;
        if self.sofar.stage.is_past_tests() {
            return Err(Refusal::OutOfPlace);
        }
        if 24 <= self.sofar.table.tests {
            return Err(Refusal::TooMany);
        }
        grow::inner::add_test(&mut self.sofar.table, output);
        self.place += 2;
        Ok(Record::Test(output))
    }

    #[tactic(auto, unfolding(crate::specs::Step::checked, crate::specs::Step::fault_rule))]
    fn fault_record(&mut self) -> Result<Record, Refusal>
        requires { self.old.place < length self.old.book.now }
        ensures { GivesBy (fault_rule self.old.book.now self.old.place self.old.sofar) self.old self.new result }
    {
        let [line, stuck] = self.body::<2>()?;
        if self.sofar.stage.is_past_faults() {
            return Err(Refusal::OutOfPlace);
        }
        if 60 <= self.sofar.table.faults {
            return Err(Refusal::TooMany);
        }
        if 1 < stuck {
            return Err(Refusal::StuckValue);
        }
        if !grow::inner::is_new(&self.sofar.table, line, stuck) {
            return Err(Refusal::SameLabel);
        }
        grow::inner::add_fault(&mut self.sofar.table, line, stuck);
        self.sofar.stage = Stage::Faults;
        self.place += 3;
        Ok(Record::Fault(line, stuck))
    }

    #[tactic(auto, unfolding(crate::specs::Step::checked, crate::specs::Step::response_rule))]
    fn response_record(&mut self) -> Result<Record, Refusal>
        requires { self.old.place < length self.old.book.now }
        ensures { GivesBy (response_rule self.old.book.now self.old.place self.old.sofar) self.old self.new result }
    {
        let [test, fault, output] = self.body::<3>()?;
        let (t, f) = (usize::from(test), usize::from(fault));
        let table = &self.sofar.table;
        if table.tests <= t || table.faults <= f {
            return Err(Refusal::NotInBook);
        }
        if self.sofar.stage.bars(f, t) {
            return Err(Refusal::NotAfter);
        }
        if table::inner::cell(&table.cells, t, 0) == output {
            return Err(Refusal::RepeatsCorrect);
        }
        grow::inner::add_response(&mut self.sofar.table, t, f, output);
        self.sofar.stage = Stage::Responses(f, t);
        self.place += 4;
        Ok(Record::Response(test, fault, output))
    }

    #[tactic(auto, unfolding(crate::specs::Step::checked, crate::specs::Step::end_rule))]
    fn end_record(&mut self) -> Result<Record, Refusal>
        requires { self.old.place < length self.old.book.now }
        ensures { GivesBy (end_rule self.old.book.now self.old.place self.old.sofar) self.old self.new result }
    {
        let [tests, faults] = self.body::<2>()?;
        let table = &self.sofar.table;
        if (usize::from(tests), usize::from(faults)) != (table.tests, table.faults) {
            return Err(Refusal::WrongCounts);
        }
        self.sofar.stage = Stage::Ended;
        self.place += 3;
        Ok(Record::End(tests, faults))
    }

    // By the kind byte, in a match on it in a local, as the paper fixes it.
    #[tactic(auto, unfolding(crate::specs::Step::checked, crate::specs::Step::unknown_rule, crate::specs::Step::kind_rule, crate::specs::Step::rule_at))]
    fn read(&mut self) -> Result<Option<Record>, Refusal>
        ensures { MovesBy (rule_at self.old.book.now self.old.place self.old.sofar) self.old self.new result }
    {
        if self.book.len() <= self.place || self.sofar.stage.has_ended() {
            return self.at_edge();
        }
        let kind = self.book[self.place];
        let given = match kind {
            0x54 => self.test_record(),
            0x46 => self.fault_record(),
            0x52 => self.response_record(),
            0x45 => self.end_record(),
            0..=0x44 | 0x47..=0x51 | 0x53..=0x53 | 0x55..=0xff => Err(Refusal::UnknownKind),
        };
        given.map(Some)
    }

    // The step: what is wrong is refused at the record's first byte.
    pub fn step(mut self) -> Stepped
        ensures { result ≡ step_at self.entry.book.now self.entry.place self.entry.sofar }
    {
        match self.read() {
            Ok(given) => Stepped {
                outcome: Ok(given),
                place: self.place,
                sofar: self.sofar,
            },
            Err(why) => refuse(why, self.place),
        }
    }
}
