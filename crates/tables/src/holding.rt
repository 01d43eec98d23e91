// What the charges that hold a set of marks say of it.
ghost use Rattle.std.specs.Prelude.{◌≡◌, if◌then◌else◌};
ghost use Rattle.tables.specs.Holding.{held_by, support_of, closure_of, unheld, joined};

use crate::table::Table;
use marks::{Charge, MarkSet, Width};

/// The support of a set, which is how many charges hold it, and its closure, which is the marks up to the width that these charges share.
#[derive(Clone, Copy, PartialEq, Eq, Debug)]
pub struct Holding {
    support: u32,
    closure: MarkSet,
}

impl Holding {
    /// The support and closure of `set` in `table`, from one pass over its charges.
    pub fn of<T: Table>(table: &T, set: MarkSet) -> Holding
        ensures support { result.support ≡ support_of (T.Table.meaning table.now) set.bits }
        ensures closure { result.closure.bits ≡ closure_of (T.Table.meaning table.now) set.bits }
    {
        let mut holding = Holding::unheld(table.width());
        for charge in Charge::up_to(table.count()) {
            holding.note(set, table.row(charge));
        }
        holding
    }

    /// Of a set that no charge holds: support 0, and all marks up to the width.
    pub fn unheld(width: Width) -> Holding
        ensures { result ≡ unheld width.number }
    {
        Holding {
            support: 0,
            closure: MarkSet::up_to(width),
        }
    }

    /// One charge more holds the set: the one with this row.
    pub fn join(&mut self, row: MarkSet)
        ensures { self.new ≡ joined row.bits self.old }
    {
        *self = Holding {
            support: self.support.saturating_add(1),
            closure: self.closure.intersection(row),
        };
    }

    // One charge more, which may hold the set.
    fn note(&mut self, set: MarkSet, row: MarkSet)
        ensures { self.new ≡ (if held_by set.bits row.bits then joined row.bits self.old else self.old) }
    {
        if set.is_part_of(row) {
            self.join(row);
        }
    }

    /// How many charges hold the set.
    pub fn support(self) -> u32
        ensures { result ≡ self.support }
    {
        self.support
    }

    /// The marks up to the width that these charges share.
    pub fn closure(self) -> MarkSet
        ensures { result ≡ self.closure }
    {
        self.closure
    }
}
