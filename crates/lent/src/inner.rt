// What writes to a lent buffer.
ghost use Rattle.std.specs.Prelude.{◌≡◌, ℕ, Bool, length};
ghost use Rattle.folds.specs.Fold.{count, gather};
ghost use Rattle.sets.specs.Collect.{CallableBelow, Computes};
ghost use Rattle.lent.specs.Lent.{WritesOnto};
ghost use Rattle.lent.specs.Row.{ValuedBelow, Values};

use table::Refusal;

// Writes f(i), for each i below n that has p, to a row of their number. By the place j, since after `iter_mut` a proof knows the length
// of the row and not its bytes.
pub fn gather<P: Fn(usize) -> bool, F: Fn(usize) -> u8>(n: usize, p: P, f: F, row: &mut [u8])
    requires callable { CallableBelow P.Fn p n }
    requires valued { ValuedBelow F.Fn f n }
    requires long { (q : ℕ → Bool) × Computes P.Fn p q n × (length row.old ≡ count q n) }
    ensures { (q : ℕ → Bool) (h : ℕ → ℕ) → Computes P.Fn p q n → Values F.Fn f h n → row.new ≡ gather q h n }
{
    let mut j = 0;
    for i in 0..n {
        if p(i) {
            row[j] = f(i);
            j += 1;
        }
    }
}

// Writes an answer over the front of a lent buffer, where it has room.
pub fn laid(answer: &[u8], buf: &mut [u8]) -> Result<usize, Refusal>
    ensures { WritesOnto 0 answer.now buf.old result buf.new }
{
    if buf.len() < answer.len() {
        return Err(Refusal::BufferShort);
    }
    buf[..answer.len()].copy_from_slice(answer);
    Ok(answer.len())
}
