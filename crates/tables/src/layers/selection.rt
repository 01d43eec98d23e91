// The layer that shows some marks only, in an order of its own.
#![tactic(auto, using(crate::specs::Choosing::chosen_length, crate::specs::Choosing::selected_row), unfolding(crate::specs::Layers::selected))]

ghost use Rattle.std.specs.Prelude.{◌≡◌};
ghost use Rattle.tables.specs.Chosen.{chosen};
ghost use Rattle.tables.specs.Layers.{selected};
ghost use Rattle.tables.specs.Choosing.{chosen_wide, selected_proper};
ghost use Rattle.tables.specs.Layering.{ShowsMarks};

use crate::layers::choice::Choice;
use crate::table::Table;
use marks::{Charge, MarkSet, Width};

/// A table of the marks of a choice: its mark j is the j-th of them below.
#[derive(Clone, Copy, Drop)]
pub struct Selection<T> {
    below: T,
    choice: Choice,
}

impl<T: Table> Selection<T> {
    /// The layer that shows the marks of `choice`.
    #[tactic(auto, using(crate::proofs::Layering::shows_marks))]
    pub fn new(below: T, choice: Choice) -> Selection<T>
        ensures value { result ≡ record { below = below; choice = choice } }
        ensures marks { ShowsMarks (chosen choice.marks choice.width.number) (T.Table.meaning below) (⟦<Selection<T> as Table>⟧.meaning result) }
    {
        Selection { below, choice }
    }
}

impl<T: Table> Table for Selection<T> {
    ghost meaning = { λ layer. selected (chosen layer.choice.marks layer.choice.width.number) (T.Table.meaning layer.below) };

    fn width(&self) -> Width {
        self.choice.width()
    }

    fn count(&self) -> u32 {
        self.below.count()
    }

    fn row(&self, charge: Charge) -> MarkSet {
        self.choice.of(self.below.row(charge))
    }

    ghost proper = { λ s.
        let marks = s.choice.marks in
        let n = s.choice.width.number in
        selected_proper (chosen marks n) (T.Table.meaning s.below) (chosen_wide marks n s.choice.whole s.choice.width.range) (T.Table.proper s.below) };
}
