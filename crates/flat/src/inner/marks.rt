// A set of faults as bytes, one for each fault.
ghost use Rattle.std.specs.Prelude.{◌≡◌, ◌≤◌, ◌<◌};
ghost use Rattle.folds.specs.Fold.{listed, total};
ghost use Rattle.sets.specs.Sets.{bit};
ghost use Rattle.flat.specs.Writes.{Lays};

use crate::inner::buffers;
use std::array;
use table::Refusal;

// 1 where the set has f, else 0.
#[tactic(auto, using(crate::proofs::Marked::has_bit))]
fn mark(set: u64, f: usize) -> u8
    requires { f < 60 }
    ensures { result ≡ bit set f }
{
    u8::from(sets::inner::has(set, f))
}

fn marks_of(set: u64) -> [u8; 60]
    ensures { result ≡ listed (bit set) 60 }
{
    array::from_fn(|f| mark(set, f))
}

// How many of the first n the set has.
fn how_many(set: u64, n: usize) -> usize
    requires { n ≤ 60 }
    ensures { result ≡ total (bit set) n }
{
    (0..n).map(|f| usize::from(mark(set, f))).sum()
}

// A mark for each of the first n over the front of the buffer, with how many are 1.
pub fn marked(set: u64, n: usize, buf: &mut [u8]) -> Result<usize, Refusal>
    requires { n ≤ 60 }
    ensures { Lays (total (bit set) n) (listed (bit set) n) buf.old result buf.new }
{
    buffers::laid(&marks_of(set)[..n], how_many(set, n), buf)
}
