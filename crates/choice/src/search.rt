// The search for the first of the lightest sets of kept tests that share a test with every mask.
ghost use Rattle.std.specs.Prelude.{◌≡◌, ◌≤◌, ◌<◌, ◌^◌, length};
ghost use Rattle.sets.specs.Sets.{one};
ghost use Rattle.choice.specs.Search.{FirstUnhit, Node, RestOf, OneMore, NeedsMore, Best};

// A set of tests with its weight.
#[derive(Clone, Copy)]
pub struct Weighed {
    pub set: u32,
    pub weight: u32,
}

// Masks that are not hit and share no test: the tests that are chosen or in one of them, and a weight that hitting them all takes.
#[derive(Clone, Copy)]
struct Spread {
    taken: u32,
    weight: u32,
}

// What is decided at a node: `chosen` has those of the tests below t that are in. The masks below `from` are hit.
#[derive(Clone, Copy)]
struct Decided {
    from: usize,
    t: usize,
    chosen: Weighed,
}

// The masks, and the tests that are kept.
#[derive(Clone, Copy)]
pub struct Search<'a> {
    pub masks: &'a [u32],
    pub kept: u32,
}

// What test t weighs.
#[tactic(auto, using(sets::proofs::Weight::one_is))]
fn weight_of(t: usize) -> u32
    ensures { result ≡ one t }
{
    1
}

// The kept tests from t on.
#[tactic(auto, using(crate::proofs::Bound::rest_of))]
fn rest_of(kept: u32, t: usize) -> u32
    requires { t < 24 }
    ensures { RestOf kept t result }
{
    (kept >> t) << t
}

impl Spread {
    // With one mask more, where it has none of the tests that are taken: it needs a test of its own, of those that are left.
    fn with_mask(self, mask: u32, rest: u32) -> Spread
        requires { self.weight < 25 }
        ensures { OneMore self.taken self.weight mask rest result.taken result.weight }
    {
        if mask & self.taken != 0 {
            return self;
        }
        Spread {
            taken: self.taken | mask & rest,
            weight: self.weight + 1,
        }
    }
}

impl Search<'_> {
    // The place of the first mask from `from` on that shares no test with `chosen`.
    fn first_unhit(&self, from: usize, chosen: u32) -> Option<usize>
        requires { from ≤ length self.now.masks.now }
        ensures { FirstUnhit self.now.masks.now from chosen result }
    {
        let next = self.masks[from..]
            .iter()
            .position(|mask| *mask & chosen == 0)?;
        Some(from + next)
    }

    // A weight that every set still needs, at most `room`.
    fn still_needed(&self, node: Decided, room: u32) -> u32
        requires { (node.t < 24) × (node.chosen.set < 2 ^ node.t) × (node.from ≤ length self.now.masks.now) × (room ≤ 25) }
        ensures { NeedsMore one self.now.masks.now self.now.kept node.t node.chosen.set result }
    {
        let rest = rest_of(self.kept, node.t);
        let mut spread = Spread {
            taken: node.chosen.set,
            weight: 0,
        };
        for mask in &self.masks[node.from..] {
            if room <= spread.weight {
                return spread.weight;
            }
            spread = spread.with_mask(*mask, rest);
        }
        spread.weight
    }

    // The first of the lightest sets below `limit` that hit every mask, are as decided below t and take kept tests from t on.
    fn best(&self, node: Decided, limit: u32) -> Option<Weighed>
        requires { Node one self.now.masks.now node.from node.t node.chosen.set node.chosen.weight × (limit ≤ 25) }
        ensures { Best one self.now.masks.now self.now.kept node.t node.chosen.set limit result }
    {
        if limit <= node.chosen.weight {
            return None;
        }
        let Some(from) = self.first_unhit(node.from, node.chosen.set) else {
            return Some(node.chosen);
        };
        if node.t == 24 {
            return None;
        }
        let here = Decided { from, ..node };
        let room = limit - here.chosen.weight;
        if room <= self.still_needed(here, room) {
            return None;
        }
        let out = Decided {
            t: here.t + 1,
            ..here
        };
        if !sets::inner::has(u64::from(self.kept), here.t) {
            return self.best(out, limit);
        }
        let with = Decided {
            chosen: Weighed {
                set: sets::inner::with(here.chosen.set, here.t),
                weight: here.chosen.weight + weight_of(here.t),
            },
            ..out
        };
        let first = self.best(with, limit);
        let later = self.best(out, first.map_or(limit, |found| found.weight));
        later.or(first)
    }

    // The first of the lightest sets below `limit`.
    #[tactic(auto, using(crate::proofs::Root::node_root))]
    fn below(&self, limit: u32) -> Option<Weighed>
        requires { limit ≤ 25 }
        ensures { Best one self.now.masks.now self.now.kept 0 0 limit result }
    {
        let root = Decided {
            from: 0,
            t: 0,
            chosen: Weighed { set: 0, weight: 0 },
        };
        self.best(root, limit)
    }

    // The first of the lightest sets. The limit rises until a set is below it, so that no heavier set is looked into.
    pub fn lightest(&self) -> Option<Weighed>
        ensures { Best one self.now.masks.now self.now.kept 0 0 25 result }
    {
        (1..26).find_map(|limit| self.below(limit))
    }
}
