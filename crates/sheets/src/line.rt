// A line of a sheet while it is read.
ghost use Rattle.std.specs.Prelude.{◌≡◌, ◌<◌, ◌||◌, ◌&&◌, not, true, false, cond, length, MatchOption, None, nat_le};
ghost use Rattle.std.specs.Str.{all_ascii_digits};
ghost use Rattle.marks.specs.Refusals.{Answers, due_if};
ghost use Rattle.marks.specs.Sets.{no_marks};
ghost use Rattle.sheets.specs.Ahead.{is_line_end, is_end_of_line};
ghost use Rattle.sheets.specs.Reading.{worth, is_bad_number, is_single_zero, number_fault};
ghost use Rattle.sheets.specs.Lines.{is_nothing, is_mark, left_of, fault_at, HasAdded, HasParted};

use crate::digits::worth;
use crate::piece::{Ahead, Place};
use marks::{Mark, MarkSet, Reason, Refusal, Width};

/// What stands at the left in a line: nothing, the 0 of a charge without marks, a mark, or a mark and a blank.
#[derive(Clone, Copy, Debug)]
pub(crate) enum Left {
    Nothing,
    Zero,
    Mark(Mark),
    Blank(Mark),
}

/// A line while it is read.
#[derive(Clone, Copy, Debug)]
pub(crate) struct Line {
    // Its marks so far.
    pub(crate) row: MarkSet,
    left: Left,
}

// Whether digits are a single 0.
fn is_single_zero(digits: &[u8]) -> bool
    ensures { result ≡ is_single_zero digits.now }
{
    matches!(digits, [b'0'])
}

// The mark that digits write, unless they start with 0 or exceed the width.
fn mark(digits: &[u8], width: Width) -> Option<Mark>
    requires some { 0 < length digits.now }
    requires all { all_ascii_digits digits.now ≡ true }
    ensures { MatchOption result (is_bad_number width.number digits.now ≡ true) (λ m. (is_bad_number width.number digits.now ≡ false) × (m.number ≡ worth digits.now)) }
{
    if digits[0] == b'0' {
        return None;
    }
    let mark = Mark::new(u64::from(worth(digits))).ok()?;
    (mark.get() <= width.get()).then_some(mark)
}

impl Left {
    // Whether a mark is above the one at the left, if there is one.
    fn is_below(self, mark: Mark) -> bool
        ensures { result ≡ not (nat_le mark.number (left_of self)) }
    {
        match self {
            Left::Nothing | Left::Zero => true,
            Left::Mark(left) | Left::Blank(left) => left.get() < mark.get(),
        }
    }
}

impl Line {
    // A line of which nothing is read.
    pub(crate) fn new() -> Line
        ensures row { result.row.bits ≡ no_marks }
        ensures left { result.left ≡ Left.Nothing }
    {
        Line {
            row: MarkSet::empty(),
            left: Left::Nothing,
        }
    }

    // Whether anything of the line is read.
    pub(crate) fn is_begun(&self) -> bool
        ensures { result ≡ not (is_nothing self.now.left) }
    {
        !matches!(self.left, Left::Nothing)
    }

    // Adds a number: a mark, or the 0 that is all of its line.
    pub(crate) fn add(
        &mut self,
        digits: &[u8],
        place: Place,
        width: Width,
        ahead: Ahead,
    ) -> Result<(), Refusal>
        requires some { 0 < length digits.now }
        requires all { all_ascii_digits digits.now ≡ true }
        ensures { Answers (cond (is_single_zero digits.now && (is_nothing self.old.left && is_end_of_line ahead)) None (number_fault (fault_at place) width.number (left_of self.old.left) digits.now)) (λ _. HasAdded self.old self.new digits.now) result }
    {
        if is_single_zero(digits) && !self.is_begun() && ahead.is_end_of_line() {
            self.left = Left::Zero;
            return Ok(());
        }
        let mark = mark(digits, width).ok_or_else(|| place.refusal(Reason::BadNumber))?;
        if !self.left.is_below(mark) {
            return Err(place.refusal(Reason::BadRise));
        }
        self.row = self.row.with(mark);
        self.left = Left::Mark(mark);
        Ok(())
    }

    // Passes a blank, which belongs between two marks.
    pub(crate) fn part(&mut self, place: Place, ahead: Ahead) -> Result<(), Refusal>
        ensures { Answers (due_if (not (is_mark self.old.left) || is_line_end ahead) (fault_at place Reason.BadBlank)) (λ _. HasParted self.old self.new) result }
    {
        match self.left {
            Left::Mark(mark) if !ahead.is_line_end() => {
                self.left = Left::Blank(mark);
                Ok(())
            }
            _ => Err(place.refusal(Reason::BadBlank)),
        }
    }
}
