// A list of marks to choose.
ghost use Rattle.std.specs.Prelude.{◌≡◌, length, slice_index};
ghost use Rattle.std.specs.List.{range_with_len};
ghost use Rattle.marks.specs.Numbers.{most_marks, InRange};
ghost use Rattle.marks.specs.Places.{first_place};
ghost use Rattle.marks.specs.Refusals.{Answers};
ghost use Rattle.tables.specs.Chosen.{chosen};
ghost use Rattle.tables.specs.Layers.{outside, repeats, choice_refusal, chosen_from};

use marks::{MARKS, Mark, MarkSet, Reason, Refusal, Width, first_passing};
use std::array;

/// Different marks in an order: the first `width` of the array.
// An array beside its length, since a choice is `Copy`, and what the library has for both in one, `ArrayVec`, is not.
#[derive(Clone, Copy, PartialEq, Eq, Debug)]
pub struct Choice {
    marks: [Mark; MARKS],
    width: Width,
    ghost whole: { length marks ≡ most_marks },
}

// Whether a number is no mark.
fn is_outside(number: u64) -> bool
    ensures { result ≡ outside number }
{
    Mark::new(number).is_err()
}

// The place of the first number that is no mark.
fn first_outside(numbers: &[u64]) -> Option<u64>
    ensures { result ≡ first_place outside numbers.now }
{
    first_passing(numbers, |number| is_outside(*number))
}

// The place of the first number that stands before it too. Not by `first_passing`, since the test needs the index.
fn first_repeat(numbers: &[u64]) -> Option<u64>
    ensures { result ≡ first_place (repeats numbers.now) (range_with_len 0 (length numbers.now)) }
{
    numbers
        .iter()
        .enumerate()
        .position(|(index, number)| numbers[..index].contains(number))
        .map(|index| index as u64 + 1)
}

// The number at an index as a mark; mark 1 if it is none, or there is no number.
fn mark_at(numbers: &[u64], index: usize) -> Mark
    ensures { InRange most_marks (slice_index numbers.now index) → result.number ≡ slice_index numbers.now index }
{
    numbers
        .get(index)
        .and_then(|number| Mark::new(*number).ok())
        .unwrap_or(Mark::first())
}

impl Choice {
    /// The choice of the marks of these numbers, in their order.
    /// Refused: RANGE at the first that is outside 1 to 32; BAD CHOICE at the first that repeats an earlier one, or at 1 for an empty list.
    #[tactic(auto, unfolding(crate::specs::Layers::choice_refusal))]
    pub fn new(numbers: &[u64]) -> Result<Choice, Refusal>
        ensures { Answers (choice_refusal numbers.now) (λ c. chosen c.marks c.width.number ≡ numbers.now) result }
    {
        if let Some(place) = first_outside(numbers) {
            return Err(Refusal::at(Reason::Range, place));
        }
        if let Some(place) = first_repeat(numbers) {
            return Err(Refusal::at(Reason::BadChoice, place));
        }
        // Only an empty list has no width here: without repeats it has at most 32 marks. BAD CHOICE stands in the place of the width's own refusal.
        let Ok(width) = Width::new(numbers.len() as u64) else {
            return Err(Refusal::at(Reason::BadChoice, 1));
        };
        Ok(Choice {
            marks: array::from_fn(|index| mark_at(numbers, index)),
            width,
        })
    }

    // How many marks are chosen.
    pub(crate) fn width(self) -> Width
        ensures { result.number ≡ self.width.number }
    {
        self.width
    }

    // The marks of a row that are chosen, in the order of the choice.
    pub(crate) fn of(self, row: MarkSet) -> MarkSet
        ensures { result.bits ≡ chosen_from (chosen self.marks self.width.number) row.bits }
    {
        MarkSet::passing(self.width, |mark| row.holds(self.marks[mark.place()]))
    }
}
