// A table of a user's own: rows in a `Vec`.
ghost use Rattle.std.specs.Prelude.{◌≡◌};
ghost use Rattle.tables.specs.Meaning.{trimmed};
ghost use Rattle.tables.specs.Trimmed.{trimmed_proper};

use marks::{Charge, MOST_CHARGES, MarkSet, Width};
use tables::Table;

/// Rows that a program has gathered. What is not proper in them is left out: rows past 65,536, and in each row the marks above the width.
#[derive(Debug, Drop)]
pub struct Ledger {
    rows: Vec<u32>,
    width: Width,
}

impl Ledger {
    /// The table of these rows, each a set as a number.
    pub fn new(rows: Vec<u32>, width: Width) -> Ledger
        ensures { result ≡ record { rows = rows; width = width } }
    {
        Ledger { rows, width }
    }
}

impl Table for Ledger {
    ghost meaning = { λ ledger. trimmed ledger.width.number ledger.rows.items };

    #[tactic(auto, using(tables::specs::Trimmed::trimmed_width))]
    fn width(&self) -> Width {
        self.width
    }

    #[tactic(auto, using(tables::specs::Trimmed::trimmed_count))]
    fn count(&self) -> u32 {
        self.rows.len().min(MOST_CHARGES as usize) as u32
    }

    fn row(&self, charge: Charge) -> MarkSet {
        let row = self.rows.get(charge.place()).copied();
        MarkSet::from_bits(row.unwrap_or(0)).intersection(MarkSet::up_to(self.width))
    }

    ghost proper = { λ ledger. trimmed_proper ledger.width.number ledger.rows.items };
}
