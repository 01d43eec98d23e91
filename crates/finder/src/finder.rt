// The finder: hands out the sets of a list, one after another.
ghost use Rattle.std.specs.Prelude.{◌≡◌, ◌≤◌};
ghost use Rattle.finder.specs.Asked.{asked};
ghost use Rattle.finder.specs.Found.{how_many, ordinal_of, last_at_place};

pub mod descent;

use crate::narrowing::Query;
use crate::step::Step;
use found::{RECORD_BYTES, Record};
use limits::Limit;
use marks::{MarkSet, Reason, Refusal, Support};
use tables::Table;

// The set that was handed out last: its record, and its marks at which a node is still to be opened.
#[derive(Clone, Copy, PartialEq, Eq, Debug)]
pub(crate) struct Last {
    pub found: Record,
    pub turns: MarkSet,
}

/// Hands out the sets of the list of a table, a limit and a support. It remembers the last set, if one came yet, with its record and its marks at which a node is still to be opened, and nothing else.
/// It stands at a place of that list: the set that it remembers is the one of its ordinal, or none before the first.
#[derive(Drop)]
pub struct Finder<T: Table, W: Limit> {
    query: Query<T, W>,
    last: Option<Last>,
    ghost within: { ordinal_of last ≤ how_many (asked T.Table.meaning W.Limit.allowed query) },
    ghost stands: { last ≡ last_at_place (asked T.Table.meaning W.Limit.allowed query) (ordinal_of last) },
}

impl<T: Table, W: Limit> Finder<T, W> {
    // These definitions name the finder: at the top of the file, its own type would rest on them.
    ghost use Rattle.closed.specs.Closed.{ListLaws};
    ghost use Rattle.finder.specs.Calls.{query_of, Fresh, NextDone, LookDone};
    ghost use Rattle.finder.specs.Runs.{ListTree};
    ghost use Rattle.finder.specs.Running.{EveryRunLawful};

    /// A finder that has handed out nothing and opened nothing.
    /// Whatever calls are then made of it one after another, and whichever of them are refused, what they tell obeys the law of runs, which `specs/Runs.antt` states.
    pub fn begin(table: T, limit: W, support: Support) -> Finder<T, W>
        ensures value { Fresh (record { table = table; limit = limit; support = support }) result }
        ensures list { ListLaws (query_of result) }
        ensures tree { ListTree (query_of result) }
        ensures lawful { EveryRunLawful result }
    {
        Finder {
            query: Query {
                table,
                limit,
                support,
            },
            last: None,
        }
    }

    /// Goes on to the next set of the list and writes its record into the first bytes of the slot.
    /// With no set left it answers End, with the ordinal and opened number of the last record, or with 0 and 1 for an empty list; the slot is then as it was.
    /// Refused: SHORT SLOT if the slot is shorter than a record, also where End is due; finder and slot are then as they were.
    pub fn next(&mut self, slot: &mut [u8]) -> Result<Step, Refusal>
        ensures { NextDone self.old slot.old result slot.new self.new }
    {
        // Judged before a node is opened, so that the write below is not refused.
        if slot.len() < RECORD_BYTES {
            return Err(Refusal::unplaced(Reason::ShortSlot));
        }
        let (ordinal, mut opened) = self
            .last
            .map_or((0, 0), |last| (last.found.ordinal, last.found.opened));
        let Some(start) = self.turn(&mut opened) else {
            return Ok(Step::End { ordinal, opened });
        };
        let leaf = self.query.descend(start, &mut opened);
        let found = Record {
            set: leaf.set,
            support: leaf.support,
            ordinal: ordinal.saturating_add(1),
            opened,
        };
        found.write(slot)?;
        self.last = Some(Last {
            found,
            turns: leaf.turns,
        });
        Ok(Step::Found)
    }

    /// Writes the last record again, also after End.
    /// Refused: SHORT SLOT if the slot is shorter than a record; NOTHING YET if no set came since begin or the last rewind. The slot is then as it was.
    pub fn look(&self, slot: &mut [u8]) -> Result<(), Refusal>
        ensures { LookDone self.now slot.old result slot.new }
    {
        if slot.len() < RECORD_BYTES {
            return Err(Refusal::unplaced(Reason::ShortSlot));
        }
        let last = self.last.ok_or(Refusal::unplaced(Reason::NothingYet))?;
        last.found.write(slot)
    }

    /// Goes back to where the finder was after begin.
    pub fn rewind(&mut self)
        ensures { Fresh self.old.query self.new }
    {
        self.last = None;
    }
}
