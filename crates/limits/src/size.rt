// The limit on how many marks.
ghost use Rattle.std.specs.Prelude.{◌≡◌};
ghost use Rattle.limits.specs.Limits.{small};
ghost use Rattle.limits.specs.Parts.{small_parts};

use crate::limit::Limit;
use marks::MarkSet;

/// Allows sets of at most so many marks.
#[derive(Clone, Copy, PartialEq, Eq, Debug)]
pub struct Size {
    most: u64,
}

impl Size {
    /// The limit to `most` marks: 32 or more limits nothing.
    pub fn new(most: u64) -> Size
        ensures { result.most ≡ most }
    {
        Size { most }
    }
}

impl Limit for Size {
    ghost allowed = { λ limit. small limit.most };

    fn allows(&self, set: MarkSet) -> bool {
        u64::from(set.size()) <= self.most
    }

    ghost parts = { λ limit. small_parts limit.most };
}
