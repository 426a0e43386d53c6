// The witness sheet: for each two classes the lowest test of a set that separates them, written to a lent buffer.
#![tactic(auto)]

ghost use Rattle.std.specs.Prelude.{◌≡◌};
ghost use Rattle.lent.specs.Lent.{set_number, WritesOnto};
ghost use Rattle.witness.specs.Witness.{sheet_of};

use lent::Given;
use table::{Refusal, Table};

mod sheet;

// Writes the witness sheet of a table under a set of tests.
#[tactic(auto, unfolding(lent::specs::Lent::set_number, lent::specs::Lent::room_number))]
pub fn witness_sheet(table: Table, set: u32, buf: &mut [u8]) -> Result<usize, Refusal>
    ensures { WritesOnto (set_number table set) (sheet_of table set) buf.old result buf.new }
{
    let given = Given::of(table, set)?;
    let k = classes::inner::class_count(&given.table);
    let bytes = k * (k - 1) / 2;
    if buf.len() < bytes {
        return Err(Refusal::BufferShort);
    }
    sheet::write_sheet(&given, k, buf);
    Ok(bytes)
}
