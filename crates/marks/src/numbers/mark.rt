// Marks.
ghost use Rattle.std.specs.Prelude.{◌≡◌, ◌+◌, ◌-◌, ◌<◌, ◌≤◌, MatchOption};
ghost use Rattle.std.specs.Iterator.{YieldsFirstBy, item_count};
ghost use Rattle.std.specs.List.{range_with_len};
ghost use Rattle.marks.specs.Numbers.{most_marks};

use crate::numbers::width::Width;
use crate::numbers::{Kind, MOST_MARKS, Number};

/// The kind of marks.
pub enum MarkKind {}

impl Kind for MarkKind {
    const NAME: &'static str = "Mark";
}

/// A mark: one of the events that a control can log at a charge.
pub type Mark = Number<MarkKind, MOST_MARKS>;

impl Number<MarkKind, MOST_MARKS> {
    // The mark at a bit of a set, which counts from 0.
    pub(crate) fn at_bit(bit: u32) -> Mark
        requires { bit < most_marks }
        ensures { result.number ≡ bit + 1 }
    {
        Number::of(bit + 1)
    }

    /// Mark 1, which every table has.
    pub fn first() -> Mark
        ensures { result.number ≡ 1 }
    {
        Number::of(1)
    }

    // It takes a width, which is no greater than the last mark, where the `next` of charges takes any count.
    /// The mark after this one, if it is up to `width`.
    pub fn next(self, width: Width) -> Option<Mark>
        ensures { MatchOption result (width.number ≤ self.number) (λ m. (m.number ≡ self.number + 1) × (self.number < width.number)) }
    {
        if self.number >= width.get() {
            return None;
        }
        Some(Number::of(self.number + 1))
    }

    /// The marks up to a width, from the first on.
    pub fn up_to(width: Width) -> FirstMarks
        ensures { (result.passed ≡ 0) × (result.width ≡ width) }
    {
        FirstMarks { passed: 0, width }
    }
}

// Beside `Marks`, which has to find each mark in its set: here the next one is known by its number, so that no mark waits for the one before it.
/// Goes over the marks up to a width, from the first on.
#[derive(Clone, Copy, Debug)]
pub struct FirstMarks {
    passed: u32,
    width: Width,
}

impl Iterator for FirstMarks {
    type Item = Mark;

    ghost next_gives = { YieldsFirstBy (λ mark. mark.number) (λ marks. range_with_len (marks.passed + 1) (marks.width.number - marks.passed)) };

    ghost remaining = { item_count (λ marks. range_with_len (marks.passed + 1) (marks.width.number - marks.passed)) };

    fn next(&mut self) -> Option<Mark> {
        if self.passed >= self.width.get() {
            return None;
        }
        self.passed += 1;
        Some(Number::of(self.passed))
    }
}
