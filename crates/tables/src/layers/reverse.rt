// The layer that reverses marks.
#![tactic(auto, unfolding(crate::specs::Layers::reversed))]

ghost use Rattle.std.specs.Prelude.{◌≡◌};
ghost use Rattle.tables.specs.Layers.{reversed};
ghost use Rattle.tables.specs.Laid.{reversed_proper};
ghost use Rattle.tables.specs.Layering.{ReversesMarks};

use crate::table::Table;
use marks::{Charge, MarkSet, Width};

/// A table in which some marks are in a row exactly where they were not below. Marks above the width stay away.
#[derive(Clone, Copy, Drop)]
pub struct Reverse<T> {
    below: T,
    flipped: MarkSet,
}

impl<T: Table> Reverse<T> {
    /// The layer that reverses the marks of `flipped`.
    #[tactic(auto, using(crate::proofs::Layering::reverses))]
    pub fn new(below: T, flipped: MarkSet) -> Reverse<T>
        ensures value { result ≡ record { below = below; flipped = flipped } }
        ensures marks { ReversesMarks flipped.bits (T.Table.meaning below) (⟦<Reverse<T> as Table>⟧.meaning result) }
    {
        Reverse { below, flipped }
    }
}

impl<T: Table> Table for Reverse<T> {
    ghost meaning = { λ layer. reversed layer.flipped.bits (T.Table.meaning layer.below) };

    fn width(&self) -> Width {
        self.below.width()
    }

    fn count(&self) -> u32 {
        self.below.count()
    }

    fn row(&self, charge: Charge) -> MarkSet {
        if charge.get() > self.below.count() {
            return MarkSet::empty();
        }
        let flipped = self
            .flipped
            .intersection(MarkSet::up_to(self.below.width()));
        self.below.row(charge).symmetric_difference(flipped)
    }

    ghost proper = { λ s. reversed_proper s.flipped.bits (T.Table.meaning s.below) (T.Table.proper s.below) };
}
