// Strict orders, and the check of neighbours.
ghost use Rattle.std.specs.Prelude.{Decides};
ghost use Rattle.marks.specs.Orders.{Before, FirstUnordered};
ghost use Rattle.marks.specs.SetOrder.{before_irrefl, before_trans};

use crate::sets::MarkSet;

// A trait of its own, so that the check serves every strict order: `PartialOrd` has to answer `Equal` exactly where `==` holds, as the order of records by their sets does not.
/// A kind of element that has a strict order.
pub trait StrictOrder {
    /// The one comes before the other.
    ghost before: { Self → Self → Type 0 };

    /// Whether this one comes before the other.
    fn is_before(&self, other: &Self) -> bool
        ensures { Decides result (before self.now other.now) };

    // None comes before itself.
    ghost irreflexive: { (x : Self) → before x x → ⊥ };

    // Before carries along.
    ghost transitive: { (x y z : Self) → before x y → before y z → before x z };
}

/// The place, from 1, of the first element that does not come after the one at its left, if there is one.
pub fn first_unordered<E: StrictOrder>(elements: &[E]) -> Option<usize>
    ensures { FirstUnordered E.StrictOrder.before elements.now result }
{
    let left = elements
        .iter()
        .zip(elements.iter().skip(1))
        .position(|(left, right)| !left.is_before(right))?;
    Some(left + 2)
}

// The list order of sets: the one that holds the lowest mark on which they differ comes first. By the trait of the rule above, and not derived: it is not the order of the numbers.
impl StrictOrder for MarkSet {
    ghost before = { λ x y. Before x.bits y.bits };

    ghost irreflexive = { λ x. before_irrefl x.bits };

    ghost transitive = { λ x y z. before_trans x.bits y.bits z.bits };

    fn is_before(&self, other: &MarkSet) -> bool {
        self.symmetric_difference(*other)
            .lowest()
            .is_some_and(|mark| self.holds(mark))
    }
}
