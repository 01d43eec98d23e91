// Two limits at once.
ghost use Rattle.std.specs.Prelude.{◌≡◌, ◌&&◌};
ghost use Rattle.std.proofs.Common.{rules};

use crate::limit::Limit;
use marks::MarkSet;

/// Allows what each of two limits allows.
#[derive(Clone, Copy, PartialEq, Eq, Debug, Drop)]
pub struct Both<L, R> {
    one: L,
    other: R,
}

impl<L: Limit, R: Limit> Both<L, R> {
    /// The limit that allows what both allow.
    pub fn new(one: L, other: R) -> Both<L, R>
        ensures { result ≡ record { one = one; other = other } }
    {
        Both { one, other }
    }
}

impl<L: Limit, R: Limit> Limit for Both<L, R> {
    ghost allowed = { λ limit s. L.Limit.allowed limit.one s && R.Limit.allowed limit.other s };

    fn allows(&self, set: MarkSet) -> bool {
        self.one.allows(set) && self.other.allows(set)
    }

    ghost parts = { Prim.search rules };
}
