// The exports for C: each calls the library's function of the same name and makes its promise again.
#![tactic(auto)]

ghost use Rattle.tockbronze.specs.Calls.{AsideCall, EssentialCall, ChooseCall, DictionaryCall, SheetCall, ReportCall, ClassesCall, SuspectsCall, UndetectableCall, ReadCall};

// The tests that are set aside for the goal.
#[unsafe(no_mangle)]
pub extern "C" fn tockbronze_set_aside(table: &[u8], goal: u64) -> u64
    ensures { AsideCall table.now goal result }
{
    tockbronze::tockbronze_set_aside(table, goal)
}

// The essential tests for the goal.
#[unsafe(no_mangle)]
pub extern "C" fn tockbronze_essential(table: &[u8], goal: u64) -> u64
    ensures { EssentialCall table.now goal result }
{
    tockbronze::tockbronze_essential(table, goal)
}

// The choice for the goal, where it has no more tests than the cap.
#[unsafe(no_mangle)]
pub extern "C" fn tockbronze_choose(table: &[u8], goal: u64, cap: u64) -> u64
    ensures { ChooseCall table.now goal cap result }
{
    tockbronze::tockbronze_choose(table, goal, cap)
}

// Writes the dictionary of the table under the set.
#[unsafe(no_mangle)]
pub extern "C" fn tockbronze_dictionary(table: &[u8], set: u32, buf: &mut [u8]) -> u64
    ensures { DictionaryCall table.now set buf.old result buf.new }
{
    tockbronze::tockbronze_dictionary(table, set, buf)
}

// Writes the witness sheet of the table under the set.
#[unsafe(no_mangle)]
pub extern "C" fn tockbronze_witness_sheet(table: &[u8], set: u32, buf: &mut [u8]) -> u64
    ensures { SheetCall table.now set buf.old result buf.new }
{
    tockbronze::tockbronze_witness_sheet(table, set, buf)
}

// Writes the text of the book.
#[unsafe(no_mangle)]
pub extern "C" fn tockbronze_report(book: &[u8], text: &mut [u8]) -> u64
    ensures { ReportCall book.now text.old result text.new }
{
    tockbronze::tockbronze_report(book, text)
}

// The number of classes, and the class number of each column in use.
#[unsafe(no_mangle)]
pub extern "C" fn tockbronze_classes(table: &[u8], of: &mut [u8]) -> u64
    ensures { ClassesCall table.now of.old result of.new }
{
    tockbronze::tockbronze_classes(table, of)
}

// The suspects for the observed outputs.
#[unsafe(no_mangle)]
pub extern "C" fn tockbronze_suspects(
    table: &[u8],
    set: u32,
    outputs: &[u8],
    columns: &mut [u8],
) -> u64
    ensures { SuspectsCall table.now set outputs.now columns.old result columns.new }
{
    tockbronze::tockbronze_suspects(table, set, outputs, columns)
}

// One byte for each fault: 1 for an undetectable one, 0 for any other.
#[unsafe(no_mangle)]
pub extern "C" fn tockbronze_undetectable(table: &[u8], faults: &mut [u8]) -> u64
    ensures { UndetectableCall table.now faults.old result faults.new }
{
    tockbronze::tockbronze_undetectable(table, faults)
}

// Reads the book, and writes the bytes of its table.
#[unsafe(no_mangle)]
pub extern "C" fn tockbronze_read(book: &[u8], table: &mut [u8]) -> u64
    ensures { ReadCall book.now table.old result table.new }
{
    tockbronze::tockbronze_read(book, table)
}
