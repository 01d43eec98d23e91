// A limit of a user's own: only some marks.
ghost use Rattle.std.specs.Prelude.{◌≡◌};
ghost use Rattle.marks.specs.Sets.{part_of};
ghost use Rattle.marks.specs.Parts.{part_fact, part_test, part_trans};

use limits::Limit;
use marks::MarkSet;

/// Allows sets of some marks only.
#[derive(Clone, Copy, PartialEq, Eq, Debug)]
pub struct Within {
    marks: MarkSet,
}

impl Within {
    /// The limit that allows the sets of these marks.
    pub fn new(marks: MarkSet) -> Within
        ensures { result.marks ≡ marks }
    {
        Within { marks }
    }
}

impl Limit for Within {
    ghost allowed = { λ limit s. part_of s limit.marks.bits };

    fn allows(&self, set: MarkSet) -> bool {
        set.is_part_of(self.marks)
    }

    ghost parts = { λ limit x y l part h. let marks = limit.marks.bits in part_test x marks (part_trans x y marks part (part_fact y marks h)) };
}
