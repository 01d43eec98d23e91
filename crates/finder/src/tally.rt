// The tally of a set: what its holders say of it, and of it with each mark added.
ghost use Rattle.std.specs.Prelude.{◌≡◌, slice_index_or};
ghost use Rattle.marks.specs.Numbers.{bit_of};
ghost use Rattle.closed.specs.Closed.{ClosureLaws};
ghost use Rattle.finder.specs.Tallies.{no_holding, tally_of, tally_besides, joined_each, noted, AboveWidth};

use marks::{Charge, MARKS, Mark, MarkSet};
use tables::{Holding, Table};

/// The support and closure of a set and, for each mark, those of the set with that mark added.
#[derive(Clone, Copy, PartialEq, Eq, Debug)]
pub struct Tally {
    own: Holding,
    marks: [Holding; MARKS],
}

// One charge more, at the records of some marks.
fn join_each(marks: &mut [Holding; MARKS], some: MarkSet, row: MarkSet)
    ensures { marks.new ≡ joined_each some.bits row.bits marks.old }
{
    for mark in some.marks() {
        marks[mark.place()].join(row);
    }
}

impl Tally {
    /// The tally of `set` in `table`, from one pass over its charges. The set may have marks above the width; no charge holds it then.
    pub fn of<T: Table>(table: &T, set: MarkSet) -> Tally
        ensures value { result ≡ tally_of (T.Table.meaning table.now) set.bits }
        ensures above { AboveWidth (T.Table.meaning table.now).width set.bits result }
        ensures laws { ClosureLaws (T.Table.meaning table.now) }
    {
        Tally::besides(table, set, MarkSet::empty())
    }

    // The tally of `set` but for the marks of `skipped`, whose records stay those of a set that no charge holds: each mark that is skipped saves a step at each charge that has it.
    pub(crate) fn besides<T: Table>(table: &T, set: MarkSet, skipped: MarkSet) -> Tally
        ensures { result ≡ tally_besides (T.Table.meaning table.now) set.bits skipped.bits }
    {
        let none = Holding::unheld(table.width());
        let mut tally = Tally {
            own: none,
            marks: [none; MARKS],
        };
        for charge in Charge::up_to(table.count()) {
            tally.note(set, skipped, table.row(charge));
        }
        tally
    }

    // One charge more, which may hold the set.
    fn note(&mut self, set: MarkSet, skipped: MarkSet, row: MarkSet)
        ensures { self.new ≡ noted set.bits skipped.bits row.bits self.old }
    {
        let Tally { own, marks } = self;
        if set.is_part_of(row) {
            own.join(row);
            join_each(marks, row.difference(skipped), row);
        }
    }

    /// Of the set itself.
    pub fn own(&self) -> Holding
        ensures { result ≡ self.now.own }
    {
        self.own
    }

    /// Of the set with the mark added.
    pub fn with(&self, mark: Mark) -> Holding
        ensures { result ≡ slice_index_or self.now.marks (bit_of mark.number) no_holding }
    {
        self.marks[mark.place()]
    }
}
