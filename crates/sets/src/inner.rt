// What the other crates ask of a set, and how they make one.
ghost use Rattle.std.specs.Prelude.{◌≡◌, ◌≤◌, ◌<◌, ◌^◌, ℕ, Bool, true};
ghost use Rattle.folds.specs.Fold.{count};
ghost use Rattle.sets.specs.Sets.{has, within};
ghost use Rattle.sets.specs.Collect.{with_test, set_of, CallableBelow, Computes};

// Whether the set holds test t.
pub fn has(set: u64, t: usize) -> bool
    requires { t < 64 }
    ensures { result ≡ has set t }
{
    (set >> t) % 2 == 1
}

// Whether every test of the set is below tests.
pub fn within(set: u32, tests: usize) -> bool
    requires { tests ≤ 24 }
    ensures { result ≡ within set tests }
{
    set >> tests == 0
}

// How many tests the set has below tests.
pub fn size(set: u32, tests: usize) -> usize
    requires { tests ≤ 24 }
    ensures { result ≡ count (has set) tests }
{
    (0..tests).filter(|t| has(u64::from(set), *t)).count()
}

// The set with test t added, above all that it holds.
pub fn with(set: u32, t: usize) -> u32
    requires { (t < 32) × (set < 2 ^ t) }
    ensures { result ≡ with_test set t true }
{
    set + (1 << t)
}

// The set of the numbers below n that have p.
pub fn set_of<F: Fn(usize) -> bool>(n: usize, p: F) -> u64
    requires small { n ≤ 64 }
    requires callable { CallableBelow F.Fn p n }
    ensures set { (q : ℕ → Bool) → Computes F.Fn p q n → result ≡ set_of q n }
    ensures bound { result < 2 ^ n }
{
    let mut set: u64 = 0;
    for i in 0..n {
        if p(i) {
            set += 1 << i;
        }
    }
    set
}
