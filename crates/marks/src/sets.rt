// Sets of marks. Each operation promises the set that a definition gives; which marks these sets have is promised once, by `holds`.
ghost use Rattle.std.specs.Prelude.{◌≡◌, ℕ, ◌^◌, ◌<◌, Bool, true, ◌&&◌, if◌then◌else◌, MatchOption, ◌==◌};
ghost use Rattle.std.specs.Iterator.{YieldsFirstBy, item_count};
ghost use Rattle.marks.specs.Filtering.{Filtered};
ghost use Rattle.marks.specs.Numbers.{bit_of, most_marks};
ghost use Rattle.marks.specs.Sets.{bits_below, has, no_marks, only, all_below, up_to, either, both, differing, minus, with_bit, without_bit, part_of, size_of, Lowest, Highest, Membership};

use crate::numbers::MOST_MARKS;
use crate::numbers::mark::Mark;
use crate::numbers::width::Width;

/// A set of marks: 32 bits, mark i being bit i - 1.
#[derive(Clone, Copy, PartialEq, Eq, Debug)]
pub struct MarkSet {
    bits: u32,
}

impl MarkSet {
    // `from_bits` and `bits`, and not `From`, which would let any number pass for a set with nothing said of bits.
    /// The set that is kept as this number.
    pub fn from_bits(bits: u32) -> MarkSet
        ensures { result.bits ≡ bits }
    {
        MarkSet { bits }
    }

    /// The number that the set is kept as.
    pub fn bits(self) -> u32
        ensures { result ≡ self.bits }
    {
        let MarkSet { bits } = self;
        bits
    }

    /// The set with no mark.
    pub fn empty() -> MarkSet
        ensures { result.bits ≡ no_marks }
    {
        MarkSet { bits: 0 }
    }

    /// The set with this mark alone.
    pub fn only(mark: Mark) -> MarkSet
        ensures { result.bits ≡ only (bit_of mark.number) }
    {
        MarkSet {
            bits: 1 << mark.place(),
        }
    }

    /// All marks up to a width.
    pub fn up_to(width: Width) -> MarkSet
        ensures { result.bits ≡ up_to width }
    {
        MarkSet {
            bits: u32::MAX >> (MOST_MARKS - width.get()),
        }
    }

    /// All marks below a mark.
    pub fn below(mark: Mark) -> MarkSet
        ensures { result.bits ≡ all_below (bit_of mark.number) }
    {
        MarkSet {
            bits: MarkSet::only(mark).bits - 1,
        }
    }

    /// Whether the mark is in the set; and which marks each set has.
    pub fn holds(self, mark: Mark) -> bool
        ensures value { result ≡ has self.bits (bit_of mark.number) }
        ensures laws { Membership }
    {
        self.bits >> mark.place() & 1 == 1
    }

    /// The set with the mark.
    pub fn with(self, mark: Mark) -> MarkSet
        ensures { result.bits ≡ with_bit self.bits (bit_of mark.number) }
    {
        self.union(MarkSet::only(mark))
    }

    /// The set with the mark, if it is held, and else the set as it is.
    pub fn with_if(self, mark: Mark, held: bool) -> MarkSet
        ensures { result.bits ≡ (if held then with_bit self.bits (bit_of mark.number) else self.bits) }
    {
        if held { self.with(mark) } else { self }
    }

    /// The set without the mark.
    pub fn without(self, mark: Mark) -> MarkSet
        ensures { result.bits ≡ without_bit self.bits (bit_of mark.number) }
    {
        self.difference(MarkSet::only(mark))
    }

    /// The marks that are in one set or the other.
    pub fn union(self, other: MarkSet) -> MarkSet
        ensures { result.bits ≡ either self.bits other.bits }
    {
        MarkSet {
            bits: self.bits | other.bits,
        }
    }

    /// The marks that are in both sets.
    pub fn intersection(self, other: MarkSet) -> MarkSet
        ensures { result.bits ≡ both self.bits other.bits }
    {
        MarkSet {
            bits: self.bits & other.bits,
        }
    }

    /// The marks of this set that are not in the other.
    pub fn difference(self, other: MarkSet) -> MarkSet
        ensures { result.bits ≡ minus self.bits other.bits }
    {
        MarkSet {
            bits: self.bits & !other.bits,
        }
    }

    /// The marks that are in just one of the two sets.
    pub fn symmetric_difference(self, other: MarkSet) -> MarkSet
        ensures { result.bits ≡ differing self.bits other.bits }
    {
        MarkSet {
            bits: self.bits ^ other.bits,
        }
    }

    /// Whether every mark of this set is in the other.
    pub fn is_part_of(self, other: MarkSet) -> bool
        ensures { result ≡ part_of self.bits other.bits }
    {
        self.bits & other.bits == self.bits
    }

    /// Whether the set has no mark.
    pub fn is_empty(self) -> bool
        ensures { result ≡ (self.bits == no_marks) }
    {
        self.bits == 0
    }

    /// How many marks the set has.
    pub fn size(self) -> u32
        ensures { result ≡ size_of self.bits }
    {
        self.bits.count_ones()
    }

    /// The lowest mark, if there is one.
    pub fn lowest(self) -> Option<Mark>
        ensures { MatchOption result (self.bits ≡ no_marks) (λ m. Lowest self.bits (bit_of m.number)) }
    {
        if self.bits == 0 {
            return None;
        }
        Some(Mark::at_bit(self.bits.trailing_zeros()))
    }

    /// The highest mark, if there is one.
    pub fn highest(self) -> Option<Mark>
        ensures { MatchOption result (self.bits ≡ no_marks) (λ m. Highest self.bits (bit_of m.number)) }
    {
        if self.bits == 0 {
            return None;
        }
        Some(Mark::at_bit(MOST_MARKS - 1 - self.bits.leading_zeros()))
    }

    /// The marks of the set, from the lowest on.
    pub fn marks(self) -> Marks
        ensures { result.rest ≡ self }
    {
        Marks { rest: self }
    }

    /// The marks of the set for which the test answers true.
    pub fn filter<F: Fn(Mark) -> bool>(self, test: F) -> MarkSet
        requires { (mark : _) → has self.bits (bit_of mark.number) ≡ true → F.pre test mark }
        ensures { Filtered (F.post test) self.bits result.bits }
    {
        let mut kept = MarkSet::empty();
        for mark in self.marks() {
            kept = kept.with_if(mark, test(mark));
        }
        kept
    }

    // Not by `filter` of all marks up to the width: going over them by their numbers takes less time.
    /// The marks up to a width for which the test answers true.
    pub fn passing<F: Fn(Mark) -> bool>(width: Width, test: F) -> MarkSet
        requires { (mark : _) → has (up_to width) (bit_of mark.number) ≡ true → F.pre test mark }
        ensures { Filtered (F.post test) (up_to width) result.bits }
    {
        let mut passed = MarkSet::empty();
        for mark in Mark::up_to(width) {
            passed = passed.with_if(mark, test(mark));
        }
        passed
    }
}

/// Goes over the marks of a set, from the lowest on.
#[derive(Clone, Copy, Debug)]
pub struct Marks {
    rest: MarkSet,
    ghost fits: { rest.bits < 2 ^ most_marks },
}

impl Iterator for Marks {
    type Item = Mark;

    ghost next_gives = { YieldsFirstBy (λ mark. bit_of mark.number) (λ marks. bits_below most_marks marks.rest.bits) };

    ghost remaining = { item_count (λ marks. bits_below most_marks marks.rest.bits) };

    fn next(&mut self) -> Option<Mark> {
        let mark = self.rest.lowest()?;
        self.rest = self.rest.without(mark);
        Some(mark)
    }
}
