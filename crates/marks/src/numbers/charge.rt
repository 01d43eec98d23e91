// Charges.
ghost use Rattle.std.specs.Prelude.{◌≡◌, ◌+◌, ◌-◌, ◌<◌, ◌≤◌, min, MatchOption};
ghost use Rattle.std.specs.Iterator.{YieldsFirstBy, item_count};
ghost use Rattle.std.specs.List.{range_with_len};
ghost use Rattle.marks.specs.Numbers.{most_charges};

use crate::numbers::{Kind, MOST_CHARGES, Number};

/// The kind of charges.
pub enum ChargeKind {}

impl Kind for ChargeKind {
    const NAME: &'static str = "Charge";
}

/// A charge: one feeding of the furnace, by its number in the log.
pub type Charge = Number<ChargeKind, MOST_CHARGES>;

impl Number<ChargeKind, MOST_CHARGES> {
    /// Charge 1, if there are any among `count`.
    pub fn first(count: u32) -> Option<Charge>
        ensures { MatchOption result (count ≡ 0) (λ c. (c.number ≡ 1) × (1 ≤ count)) }
    {
        if count == 0 {
            return None;
        }
        Some(Number::of(1))
    }

    /// The charge after this one, if it is among `count` charges and there can be one.
    pub fn next(self, count: u32) -> Option<Charge>
        ensures { MatchOption result (min count most_charges ≤ self.number) (λ c. (c.number ≡ self.number + 1) × (self.number < min count most_charges)) }
    {
        if self.number >= count || self.number >= MOST_CHARGES {
            return None;
        }
        Some(Number::of(self.number + 1))
    }

    /// The charges among `count` of them, from the first on: as many as there can be.
    pub fn up_to(count: u32) -> Charges
        ensures { (result.passed ≡ 0) × (result.count ≡ min count most_charges) }
    {
        Charges {
            passed: 0,
            count: count.min(MOST_CHARGES),
        }
    }
}

/// Goes over the charges of a table, from the first on.
#[derive(Clone, Copy, Debug)]
pub struct Charges {
    passed: u32,
    count: u32,
    ghost few: { count ≤ most_charges },
}

impl Iterator for Charges {
    type Item = Charge;

    ghost next_gives = { YieldsFirstBy (λ charge. charge.number) (λ charges. range_with_len (charges.passed + 1) (charges.count - charges.passed)) };

    ghost remaining = { item_count (λ charges. range_with_len (charges.passed + 1) (charges.count - charges.passed)) };

    fn next(&mut self) -> Option<Charge> {
        if self.passed >= self.count {
            return None;
        }
        self.passed += 1;
        Some(Number::of(self.passed))
    }
}
