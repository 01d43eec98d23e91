// A transcript: what a finder tells that is fresh from begin and of which one call after another is made.
ghost use Rattle.std.specs.Prelude.{◌≡◌, IfOk};
ghost use Rattle.closed.specs.Closed.{query};
ghost use Rattle.finder.specs.Transcripts.{move_of, entry_of, TranscriptOf};
ghost use Rattle.finder.specs.Running.{Does};

use crate::finder::Finder;
use crate::step::Step;
use limits::Limit;
use marks::{Refusal, Support};
use std::alloc::{AllocError, Global};
use tables::Table;

/// A call to make of a finder, and how many bytes its slot has.
#[derive(Clone, Copy, PartialEq, Eq, Debug)]
pub enum Move {
    Next { slot: usize },
    Look { slot: usize },
    Rewind,
}

/// What a call told: its answer, and what its slot then holds.
#[derive(PartialEq, Eq, Debug, Drop)]
pub enum Told {
    Next {
        answer: Result<Step, Refusal>,
        slot: Vec<u8>,
    },
    Look {
        answer: Result<(), Refusal>,
        slot: Vec<u8>,
    },
    Rewind,
}

impl<T: Table, W: Limit> Finder<T, W> {
    // Makes the move, with a slot of zeros. A `match` on the move: moves are data that a caller lists and the contract names, which closures could not be.
    fn make(&mut self, alloc: Global, asked: Move) -> Result<Told, AllocError>
        ensures { IfOk result (λ told. (move_of told ≡ asked) × Does self.old (entry_of told) self.new) }
    {
        Ok(match asked {
            Move::Next { slot } => {
                let mut slot = vec![in alloc; 0u8; slot]?;
                let answer = self.next(&mut slot);
                Told::Next { answer, slot }
            }
            Move::Look { slot } => {
                let mut slot = vec![in alloc; 0u8; slot]?;
                let answer = self.look(&mut slot);
                Told::Look { answer, slot }
            }
            Move::Rewind => {
                self.rewind();
                Told::Rewind
            }
        })
    }
}

/// Makes the moves one after another of a finder that is fresh from begin, each with a slot of zeros of the length that it names, and answers what each told.
/// The one error is want of memory, which is no refusal.
pub fn transcript<T: Table, W: Limit>(
    alloc: Global,
    table: &T,
    limit: &W,
    support: Support,
    moves: &[Move],
) -> Result<Vec<Told>, AllocError>
    ensures { IfOk result (λ told. TranscriptOf (query (T.Table.meaning table.now) (W.Limit.allowed limit.now) support.number) moves.now told.items) }
{
    let mut finder = Finder::begin(table, limit, support);
    let mut told = Vec::new(alloc);
    for asked in moves {
        told.push(finder.make(alloc, *asked)?)?;
    }
    Ok(told)
}
