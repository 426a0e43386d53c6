// Whether some start of a book gives what has been read so far.
ghost use Rattle.std.specs.Prelude.{◌≡◌, ◌<◌};
ghost use Rattle.book.specs.Sound.{correct_at, fault_correct, correct_from, stage_fits, sound_test};

use records::{SoFar, Stage};
use table::Fitting;

// Whether the response of fault f to test t is before the first one asked for, or the correct output.
#[tactic(auto, unfolding(crate::specs::Sound::correct_at))]
fn is_correct(table: &Fitting, first: usize, f: usize, t: usize) -> bool
    requires { (f < 60) × (t < 24) }
    ensures { result ≡ correct_at table.now.table.cells first f t }
{
    f * 24 + t < first || table.output(t, 0) == table.output(t, f + 1)
}

fn is_fault_correct(table: &Fitting, first: usize, f: usize) -> bool
    requires { f < 60 }
    ensures { result ≡ fault_correct table.now.table.cells table.now.table.tests first f }
{
    (0..table.tests()).all(|t| is_correct(table, first, f, t))
}

fn is_correct_from(table: &Fitting, first: usize) -> bool
    ensures { result ≡ correct_from table.now.table.cells table.now.table.tests table.now.table.faults first }
{
    (0..table.table.faults).all(|f| is_fault_correct(table, first, f))
}

fn stage_fits(stage: Stage, table: &Fitting) -> bool
    ensures { result ≡ stage_fits stage table.now.table }
{
    let faults = table.table.faults;
    match stage {
        Stage::Tests => faults == 0,
        Stage::Faults => faults != 0 && is_correct_from(table, 0),
        Stage::Responses(f, t) => {
            t < table.tests()
                && f < faults
                && table.output(t, 0) != table.output(t, f + 1)
                && is_correct_from(table, f * 24 + t + 1)
        }
        Stage::Ended => true,
    }
}

#[tactic(auto, unfolding(crate::specs::Sound::sound_test))]
pub fn is_sound(sofar: &SoFar) -> bool
    ensures { result ≡ sound_test sofar.now }
{
    match Fitting::of(sofar.table) {
        Ok(table) => stage_fits(sofar.stage, &table),
        Err(_) => false,
    }
}
