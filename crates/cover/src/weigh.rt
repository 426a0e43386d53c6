// Tests weighed by the masks that they are in.
ghost use Rattle.std.specs.Prelude.{◌≡◌, ◌-◌, ◌^◌, ◌≤◌, ◌<◌, bit_and, cond};
ghost use Rattle.sets.specs.Collect.{set_of};
ghost use Rattle.sets.specs.Sets.{has};
ghost use Rattle.cover.specs.Kept.{mask_is, used, covers, outdone, kept, lone};

// The masks of a goal's pairs, and how many tests the table has.
#[derive(Clone, Copy)]
pub struct Masks<'a> {
    pub masks: &'a [u32],
    pub tests: usize,
    pub ghost tests_fit: { tests ≤ 24 },
}

// The tests below t.
#[tactic(auto, using(crate::proofs::Shared::lower_room, crate::proofs::Shared::lower_is))]
fn lower_tests(t: usize) -> u32
    requires { t < 24 }
    ensures { result ≡ 2 ^ t - 1 }
{
    (1 << t) - 1
}

// The tests that are shared still, with one mask more: only the mask's, where test t is in it. A choice and not a filter, since the
// compiler then takes several masks at once.
fn share(shared: u32, mask: u32, t: usize) -> u32
    requires { t < 24 }
    ensures { result ≡ cond (has mask t) (bit_and shared mask) shared }
{
    if sets::inner::has(u64::from(mask), t) {
        shared & mask
    } else {
        shared
    }
}

// Whether test t is the mask's only kept test.
#[tactic(auto, unfolding(crate::specs::Kept::mask_is), using(sets::proofs::Collect::one_shl))]
fn mask_is(mask: u32, kept: u32, t: usize) -> bool
    requires { t < 24 }
    ensures { result ≡ mask_is kept t mask }
{
    mask & kept == 1 << t
}

impl Masks<'_> {
    // Whether some mask has test t.
    fn uses(&self, t: usize) -> bool
        requires { t < 24 }
        ensures { result ≡ used self.now.masks.now t }
    {
        self.masks
            .iter()
            .any(|mask| sets::inner::has(u64::from(*mask), t))
    }

    // The tests that are in every mask that test t is in; all of them where it is in none.
    fn shared_with(&self, t: usize) -> u32
        requires { t < 24 }
        ensures { result ≡ set_of (λ u. covers self.now.masks.now u t) 24 }
    {
        self.masks
            .iter()
            .fold(16777215, |shared, mask| share(shared, *mask, t))
    }

    // Whether some test outdoes test t: it is lower, and in every mask that t is in.
    #[tactic(auto, using(crate::proofs::Shared::lower_tells))]
    fn outdone(&self, t: usize) -> bool
        requires { t < self.now.tests }
        ensures { result ≡ outdone self.now.masks.now self.now.tests t }
    {
        self.shared_with(t) & lower_tests(t) != 0
    }

    // Whether test t is kept: no test outdoes it, and some mask has it.
    #[tactic(auto, unfolding(crate::specs::Kept::kept))]
    fn keeps(&self, t: usize) -> bool
        requires { t < self.now.tests }
        ensures { result ≡ kept self.now.masks.now self.now.tests t }
    {
        !self.outdone(t) && self.uses(t)
    }

    // The tests that are not set aside.
    pub fn kept(&self) -> u32
        ensures { result ≡ set_of (kept self.now.masks.now self.now.tests) self.now.tests }
    {
        sets::inner::set_of(self.tests, |t| self.keeps(t)) as u32
    }

    // Whether test t is some mask's only kept test.
    fn lone(&self, kept: u32, t: usize) -> bool
        requires { t < 24 }
        ensures { result ≡ lone self.now.masks.now kept t }
    {
        self.masks.iter().any(|mask| mask_is(*mask, kept, t))
    }

    // The tests that are the only kept one of some mask.
    pub fn lone_tests(&self, kept: u32) -> u32
        ensures { result ≡ set_of (lone self.now.masks.now kept) self.now.tests }
    {
        sets::inner::set_of(self.tests, |t| self.lone(kept, t)) as u32
    }
}
