// The layer that shows some charges only.
#![tactic(auto, unfolding(crate::specs::Layers::windowed))]

ghost use Rattle.std.specs.Prelude.{◌≡◌};
ghost use Rattle.tables.specs.Layers.{windowed};
ghost use Rattle.tables.specs.Laid.{windowed_proper};
ghost use Rattle.tables.specs.Layering.{ShowsCharges};

use crate::table::Table;
use marks::{Charge, MarkSet, Width};

/// A table of so many charges from a first one on, or of as many as there are.
#[derive(Clone, Copy, Drop)]
pub struct Window<T> {
    below: T,
    first: Charge,
    count: u32,
}

impl<T: Table> Window<T> {
    /// The layer that shows `count` charges from `first` on.
    #[tactic(auto, using(crate::proofs::Layering::shows_charges))]
    pub fn new(below: T, first: Charge, count: u32) -> Window<T>
        ensures value { result ≡ record { below = below; first = first; count = count } }
        ensures charges { ShowsCharges first.number count (T.Table.meaning below) (⟦<Window<T> as Table>⟧.meaning result) }
    {
        Window {
            below,
            first,
            count,
        }
    }
}

impl<T: Table> Table for Window<T> {
    ghost meaning = { λ layer. windowed layer.first.number layer.count (T.Table.meaning layer.below) };

    fn width(&self) -> Width {
        self.below.width()
    }

    fn count(&self) -> u32 {
        let hidden = self.first.place() as u32;
        self.below.count().saturating_sub(hidden).min(self.count)
    }

    fn row(&self, charge: Charge) -> MarkSet {
        if charge.get() > self.count {
            return MarkSet::empty();
        }
        let hidden = self.first.place() as u32;
        Charge::new(u64::from(hidden) + u64::from(charge.get())).map_or(
            MarkSet::empty(),
            |below| self.below.row(below),
        )
    }

    ghost proper = { λ s. windowed_proper s.first.number s.count (T.Table.meaning s.below) (T.Table.proper s.below) };
}
