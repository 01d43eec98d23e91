// The limit on pairs.
ghost use Rattle.std.specs.Prelude.{◌≡◌, ◌<◌, ◌≤◌, length, nat_lt, not};
ghost use Rattle.std.specs.List.{range_with_len};
ghost use Rattle.marks.specs.Orders.{After, Rising};
ghost use Rattle.marks.specs.Places.{first_place};
ghost use Rattle.marks.specs.Refusals.{Answers};
ghost use Rattle.limits.specs.Pairs.{holds_number, holds_pair, unbarred, PairBefore, off_range, misplaced, bars_refusal};
ghost use Rattle.std.proofs.Common.{rules};
ghost use Rattle.limits.specs.Parts.{unbarred_parts};

use crate::limit::Limit;
use marks::{Mark, MarkSet, Reason, Refusal, StrictOrder, first_passing, first_unordered};

/// Two marks, by their numbers; in order by the first, and then by the second.
#[derive(Clone, Copy, PartialEq, Eq, PartialOrd, Ord, Debug)]
pub struct Pair {
    pub first: u64,
    pub second: u64,
}

impl StrictOrder for Pair {
    ghost before = { PairBefore };

    ghost irreflexive = { Prim.search rules };

    ghost transitive = { Prim.search rules };

    fn is_before(&self, other: &Pair) -> bool {
        self < other
    }
}

impl Pair {
    // Whether an entry is no mark.
    fn is_off_range(self) -> bool
        ensures { result ≡ off_range self }
    {
        Mark::new(self.first).is_err() || Mark::new(self.second).is_err()
    }

    // Whether its first mark is not below its second.
    fn is_turned(self) -> bool
        ensures { result ≡ not (nat_lt self.first self.second) }
    {
        self.first >= self.second
    }

    // Whether the set holds the pair whole.
    fn is_in(self, set: MarkSet) -> bool
        ensures { result ≡ holds_pair set.bits self }
    {
        holds_number(set, self.first) && holds_number(set, self.second)
    }
}

/// Allows sets that hold none of some pairs of marks whole.
#[derive(Clone, Copy, PartialEq, Eq, Debug)]
pub struct Bars<'a> {
    pairs: &'a [Pair],
}

// Whether the set has the mark of a number.
fn holds_number(set: MarkSet, number: u64) -> bool
    ensures { result ≡ holds_number set.bits number }
{
    Mark::new(number).is_ok_and(|mark| set.holds(mark))
}

// The place of the first pair with an entry that is no mark.
fn first_off_range(pairs: &[Pair]) -> Option<u64>
    ensures { result ≡ first_place off_range pairs.now }
{
    first_passing(pairs, |pair| pair.is_off_range())
}

// How many pairs at the front come each after the one at its left: all pairs where none is out of order.
fn ordered_front(pairs: &[Pair]) -> usize
    ensures within { result ≤ length pairs.now }
    ensures rising { Rising PairBefore pairs.now result }
    ensures some { result < length pairs.now → 0 < result }
    ensures stops { result < length pairs.now → After PairBefore pairs.now result → ⊥ }
{
    first_unordered(pairs).map_or(pairs.len(), |place| place - 1)
}

// The place of the first pair that has not its lower mark first, or does not come after the one at its left.
// Only the pairs that are in order are looked at for the first of these faults: a list that is out of order early is not gone over whole.
fn first_misplaced(pairs: &[Pair]) -> Option<u64>
    ensures { result ≡ first_place (misplaced pairs.now) (range_with_len 0 (length pairs.now)) }
{
    let ordered = ordered_front(pairs);
    first_passing(&pairs[0..ordered], |pair| pair.is_turned()).or(
        (ordered < pairs.len()).then_some(ordered as u64 + 1),
    )
}

impl<'a> Bars<'a> {
    /// The limit that bars these pairs.
    /// Refused: RANGE at the first pair with an entry outside 1 to 32; BAD PAIR at the first pair whose first mark is not below its second, or that does not come
    /// after the pair before it, by the first mark and then by the second.
    #[tactic(auto, unfolding(crate::specs::Pairs::bars_refusal))]
    pub fn new(pairs: &'a [Pair]) -> Result<Bars<'a>, Refusal>
        ensures { Answers (bars_refusal pairs.now) (λ limit. limit.pairs.now ≡ pairs.now) result }
    {
        if let Some(place) = first_off_range(pairs) {
            return Err(Refusal::at(Reason::Range, place));
        }
        if let Some(place) = first_misplaced(pairs) {
            return Err(Refusal::at(Reason::BadPair, place));
        }
        Ok(Bars { pairs })
    }
}

impl Limit for Bars<'_> {
    ghost allowed = { λ limit. unbarred limit.pairs.now };

    fn allows(&self, set: MarkSet) -> bool {
        !self.pairs.iter().any(|pair| pair.is_in(set))
    }

    ghost parts = { λ limit. unbarred_parts limit.pairs.now };
}
