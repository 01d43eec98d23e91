// What a table is.
ghost use Rattle.std.specs.Prelude.{◌≡◌};
ghost use Rattle.tables.specs.Meaning.{Meaning, Proper, count_of, row_of};

use marks::{Charge, MarkSet, Width};

/// A table of charges. Each answer follows from the table's meaning, so it is the same each time.
pub trait Table {
    /// What the table means.
    ghost meaning: { Self → Meaning };

    /// How many marks the table has.
    fn width(&self) -> Width
        ensures { result.number ≡ (meaning self.now).width };

    /// How many charges the table has.
    fn count(&self) -> u32
        ensures { result ≡ count_of (meaning self.now) };

    /// The marks of a charge: none past the count.
    fn row(&self, charge: Charge) -> MarkSet
        ensures { result.bits ≡ row_of (meaning self.now) charge.number };

    // The meaning is proper.
    ghost proper: { (table : Self) → Proper (meaning table) };
}

// A table that is lent is a table.
impl<U: Table> Table for &U {
    ghost meaning = { λ table. U.Table.meaning table.now };

    fn width(&self) -> Width {
        (**self).width()
    }

    fn count(&self) -> u32 {
        (**self).count()
    }

    fn row(&self, charge: Charge) -> MarkSet {
        (**self).row(charge)
    }

    ghost proper = { λ table. U.Table.proper table.now };
}
