// The calls for programs in other languages, on numbers and bytes. A table is lent as 1,586 bytes; an answer is one number, the
// refusal in its low 8 bits and the value above them. The C interface fixes the names and the numbers.
#![tactic(auto)]

ghost use Rattle.tockbronze.specs.Calls.{ForGoal, AsideCall, EssentialCall, ChooseCall, DictionaryCall, SheetCall, ReportCall, ClassesCall, SuspectsCall, UndetectableCall, ReadCall};

use flat::inner::{answers, buffers, marks, tables};
use table::{Goal, Refusal, Table};

// What a call answers for the goal; 99 for what is no goal.
fn for_goal<F: FnOnce(Table, Goal) -> Result<u32, Refusal>>(table: &[u8], goal: u64, call: F) -> u64
    requires { F.IsAlwaysCallable call }
    ensures { ForGoal (F.post call) table.now goal result }
{
    let given = tables::table_in(table);
    match Goal::try_from(goal) {
        Ok(goal) => answers::of_chosen(call(given, goal)),
        Err(_) => answers::unknown_goal(given),
    }
}

// The tests that are set aside for the goal.
pub fn tockbronze_set_aside(table: &[u8], goal: u64) -> u64
    ensures { AsideCall table.now goal result }
{
    for_goal(table, goal, cover::set_aside)
}

// The essential tests for the goal.
pub fn tockbronze_essential(table: &[u8], goal: u64) -> u64
    ensures { EssentialCall table.now goal result }
{
    for_goal(table, goal, cover::essential)
}

// The choice for the goal, where it has no more tests than the cap.
pub fn tockbronze_choose(table: &[u8], goal: u64, cap: u64) -> u64
    ensures { ChooseCall table.now goal cap result }
{
    let cap = answers::cap_of(cap);
    for_goal(table, goal, |given, goal| choice::choose(given, goal, cap))
}

// Writes the dictionary of the table under the set.
pub fn tockbronze_dictionary(table: &[u8], set: u32, buf: &mut [u8]) -> u64
    ensures { DictionaryCall table.now set buf.old result buf.new }
{
    answers::packed(dictionary::dictionary(tables::table_in(table), set, buf))
}

// Writes the witness sheet of the table under the set.
pub fn tockbronze_witness_sheet(table: &[u8], set: u32, buf: &mut [u8]) -> u64
    ensures { SheetCall table.now set buf.old result buf.new }
{
    answers::packed(witness::witness_sheet(tables::table_in(table), set, buf))
}

// Writes the text of the book.
pub fn tockbronze_report(book: &[u8], text: &mut [u8]) -> u64
    ensures { ReportCall book.now text.old result text.new }
{
    answers::packed(report::report(book, text))
}

// The number of classes, and the class number of each column in use.
#[tactic(auto, using(crate::proofs::Laid::few_faults))]
pub fn tockbronze_classes(table: &[u8], of: &mut [u8]) -> u64
    ensures { ClassesCall table.now of.old result of.new }
{
    let given = tables::table_in(table);
    match classes::classify(given) {
        Ok(classes) => {
            let numbers = &classes.of[..given.faults + 1];
            answers::packed(buffers::laid(numbers, classes.count, of))
        }
        Err(why) => answers::packed(Err(why)),
    }
}

// The suspects for the observed outputs.
#[tactic(auto, using(suspects::proofs::Few::few_found))]
pub fn tockbronze_suspects(table: &[u8], set: u32, outputs: &[u8], columns: &mut [u8]) -> u64
    ensures { SuspectsCall table.now set outputs.now columns.old result columns.new }
{
    match suspects::suspects_of(tables::table_in(table), set, outputs) {
        Ok(found) => {
            let list = &found.columns[..found.count];
            answers::packed(buffers::laid(list, found.count, columns))
        }
        Err(why) => answers::packed(Err(why)),
    }
}

// One byte for each fault: 1 for an undetectable one, 0 for any other.
pub fn tockbronze_undetectable(table: &[u8], faults: &mut [u8]) -> u64
    ensures { UndetectableCall table.now faults.old result faults.new }
{
    let given = tables::table_in(table);
    match classes::undetectable(given) {
        Ok(set) => answers::packed(marks::marked(set, given.faults, faults)),
        Err(why) => answers::packed(Err(why)),
    }
}

// Reads the book, and writes the bytes of its table.
pub fn tockbronze_read(book: &[u8], table: &mut [u8]) -> u64
    ensures { ReadCall book.now table.old result table.new }
{
    let reading = book::read_book(book);
    match reading.verdict {
        Ok(()) => answers::packed(tables::written(&reading.table, reading.place, table)),
        Err(why) => answers::at_place(why, reading.place),
    }
}
