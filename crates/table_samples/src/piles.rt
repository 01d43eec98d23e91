// A pile of layers over any table.
ghost use Rattle.std.specs.Prelude.{◌≡◌};
ghost use Rattle.tables.specs.Chosen.{chosen};
ghost use Rattle.tables.specs.Layers.{reversed, selected, windowed};
ghost use Rattle.tables.specs.Meaning.{row_of};

use marks::{Charge, MarkSet};
use tables::{Choice, Reverse, Selection, Table, Window};

/// The layers of a pile: a window of `count` charges from `first` on, reversed marks, and a choice of marks.
#[derive(Clone, Copy)]
pub struct Pile {
    pub first: Charge,
    pub count: u32,
    pub flipped: MarkSet,
    pub choice: Choice,
}

/// The row of a charge in a selection over reversed marks over a window over any table.
pub fn row_through<T: Table + Drop>(table: T, pile: Pile, charge: Charge) -> MarkSet
    ensures { result.bits ≡ row_of (selected (chosen pile.choice.marks pile.choice.width.number) (reversed pile.flipped.bits (windowed pile.first.number pile.count (T.Table.meaning table)))) charge.number }
{
    let window = Window::new(table, pile.first, pile.count);
    Selection::new(Reverse::new(window, pile.flipped), pile.choice).row(charge)
}
