// The columns table.
ghost use Rattle.std.specs.Prelude.{◌≡◌, ◌-◌, ◌*◌, ◌≤◌, not, length, ◌==◌};
ghost use Rattle.std.specs.List.{range_with_len};
ghost use Rattle.std.specs.Option.{option_map};
ghost use Rattle.marks.specs.Numbers.{most_charges, bit_of};
ghost use Rattle.marks.specs.Places.{first_place};
ghost use Rattle.marks.specs.Refusals.{Answers};
ghost use Rattle.marks.specs.Sets.{no_marks};
ghost use Rattle.tables.specs.Columns.{words_per_mark, column_has, column_row, column_rows, past_count, columns_refusal, columns_meaning};
ghost use Rattle.tables.specs.Columned.{columns_proper};

use crate::table::Table;
use marks::{Charge, MOST_CHARGES, Mark, MarkSet, Reason, Refusal, Width};

pub mod turning;

/// How many bits a word has.
pub const WORD_BITS: usize = 64;

/// A table over lent words: for each mark a bit for each charge, in words of 64 bits.
#[derive(Clone, Copy, Debug)]
pub struct Columns<'a> {
    words: &'a [u64],
    width: Width,
    count: u32,
    ghost few: { count ≤ most_charges },
    ghost sized: { length words.now ≡ width.number * words_per_mark count },
}

// How many words a mark has for so many charges.
pub(crate) fn words_per_mark(count: u32) -> usize
    requires { count ≤ most_charges }
    ensures value { result ≡ words_per_mark count }
    ensures bound { result ≤ 1024 }
{
    (count as usize).div_ceil(WORD_BITS)
}

impl<'a> Columns<'a> {
    /// The table of this width and count over the words.
    /// Refused: TOO MANY if the count is above 65,536; WORD COUNT unless there are exactly as many words as the marks and charges take; STRAY, at the first mark that has a bit past the count.
    pub fn new(words: &'a [u64], width: Width, count: u64) -> Result<Columns<'a>, Refusal>
        ensures { Answers (columns_refusal words.now width.number count) (λ t. columns_meaning t.words.now t.width.number t.count ≡ record { width = width.number; rows = column_rows words.now width.number count }) result }
    {
        if count > u64::from(MOST_CHARGES) {
            return Err(Refusal::unplaced(Reason::TooMany));
        }
        let count = count as u32;
        if words.len() != width.get() as usize * words_per_mark(count) {
            return Err(Refusal::unplaced(Reason::WordCount));
        }
        let columns = Columns {
            words,
            width,
            count,
        };
        if let Some(mark) = columns.first_stray() {
            return Err(Refusal::at(Reason::Stray, u64::from(mark.get())));
        }
        Ok(columns)
    }

    // The first mark that has a bit past the count.
    fn first_stray(&self) -> Option<Mark>
        ensures { option_map (λ mark. mark.number) result ≡ first_place (λ b. not (past_count self.now.words.now self.now.count b == no_marks)) (range_with_len 0 self.now.width.number) }
    {
        Mark::up_to(self.width).find(|mark| self.spills(*mark))
    }

    // Whether a mark has a bit past the count.
    // By index, since one word is read: the last of the mark.
    fn spills(&self, mark: Mark) -> bool
        requires { mark.number ≤ self.now.width.number }
        ensures { result ≡ not (past_count self.now.words.now self.now.count (bit_of mark.number) == no_marks) }
    {
        let used = self.count as usize % WORD_BITS;
        let per = words_per_mark(self.count);
        used != 0 && self.words[mark.place() * per + per - 1] >> used != 0
    }

    // Whether a mark has a charge's bit.
    // By index, since one word is read.
    fn holds(&self, mark: Mark, charge: Charge) -> bool
        requires mark { mark.number ≤ self.now.width.number }
        requires charge { charge.number ≤ self.now.count }
        ensures { result ≡ column_has self.now.words.now (words_per_mark self.now.count) (bit_of mark.number) (charge.number - 1) }
    {
        let per = words_per_mark(self.count);
        let place = charge.place();
        self.words[mark.place() * per + place / WORD_BITS] >> (place % WORD_BITS) & 1 == 1
    }
}

impl Table for Columns<'_> {
    ghost meaning = { λ t. columns_meaning t.words.now t.width.number t.count };

    fn width(&self) -> Width {
        self.width
    }

    fn count(&self) -> u32 {
        self.count
    }

    fn row(&self, charge: Charge) -> MarkSet {
        if charge.get() > self.count {
            return MarkSet::empty();
        }
        MarkSet::passing(self.width, |mark| self.holds(mark, charge))
    }

    ghost proper = { λ t. columns_proper t.words.now t.width.number t.count };
}
