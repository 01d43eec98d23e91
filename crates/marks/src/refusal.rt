// Why a call refuses, and where.
ghost use Rattle.std.specs.Prelude.{◌≡◌, ◌==◌, Some};
ghost use Rattle.marks.specs.Refusals.{number_of, refusal_text, placed_at_two, placed_at, unplaced};

use std::error::Error;
use std::fmt;

/// The reasons for a refusal, each with the number by which users know it.
#[derive(Debug, Clone, Copy, PartialEq, Eq)]
pub enum Reason {
    Form = 1,
    Range = 2,
    BadByte = 3,
    BadNumber = 4,
    BadRise = 5,
    BadBlank = 6,
    NoLineEnd = 7,
    TooMany = 8,
    NoPlace = 9,
    Long = 10,
    Ragged = 11,
    Stray = 12,
    WordCount = 13,
    BadChoice = 14,
    BadPair = 15,
    OutOfOrder = 16,
    ShortSlot = 17,
    NothingYet = 18,
    Clash = 19,
    DeadEnd = 20,
}

/// A refusal: its reason and two places, which count from 1 and are 0 where none is named.
/// A single place is the first; a line and its column are the first and the second.
#[derive(Clone, Copy, PartialEq, Eq, Debug)]
pub struct Refusal {
    reason: Reason,
    // Places count from 1, so one that is not named is 0.
    first: u64,
    second: u64,
}

impl Reason {
    // A method, and not `From`, since its name says which number it is.
    /// The number by which users know the reason: no other reason has it.
    pub fn number(self) -> u64
        ensures value { result ≡ number_of self }
        ensures own { (other : Reason) → number_of other ≡ result → other ≡ self }
        ensures same { (other : Reason) → ⟦<Reason as PartialEq>⟧.eq self other ≡ (number_of self == number_of other) }
    {
        self as u64
    }
}

impl Refusal {
    /// A refusal that names no place.
    pub fn unplaced(reason: Reason) -> Refusal
        ensures { result ≡ unplaced reason }
    {
        Refusal::at(reason, 0)
    }

    /// A refusal at one place.
    pub fn at(reason: Reason, place: u64) -> Refusal
        ensures { result ≡ placed_at reason place }
    {
        Refusal::at_line(reason, place, 0)
    }

    /// A refusal at a line and a column.
    pub fn at_line(reason: Reason, line: u64, column: u64) -> Refusal
        ensures { result ≡ placed_at_two reason line column }
    {
        Refusal {
            reason,
            first: line,
            second: column,
        }
    }

    /// The reason.
    pub fn reason(self) -> Reason
        ensures { result ≡ self.reason }
    {
        self.reason
    }

    // A method and not `From`, as `Reason::number` is.
    /// The number of its reason.
    pub fn number(self) -> u64
        ensures { result ≡ number_of self.reason }
    {
        Reason::number(self.reason)
    }

    /// The first place, or 0.
    pub fn first(self) -> u64
        ensures { result ≡ self.first }
    {
        self.first
    }

    /// The second place, or 0.
    pub fn second(self) -> u64
        ensures { result ≡ self.second }
    {
        self.second
    }
}

// Shown by its number and its places, as in the line that the program prints for it.
impl fmt::Display for Refusal {
    ghost output = { λ refusal. Some (refusal_text (number_of refusal.reason) refusal.first refusal.second) };

    fn fmt<W: fmt::Write>(&self, f: &mut fmt::Formatter<W>) -> fmt::Result {
        let number = self.number();
        let (first, second) = (self.first, self.second);
        write!(f, "fault {number} line {first} column {second}")
    }
}

impl Error for Refusal {}
