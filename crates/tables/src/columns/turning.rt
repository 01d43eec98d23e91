// Turning a table into columns.
ghost use Rattle.std.specs.Prelude.{◌≡◌, ℕ, true, ◌+◌, ◌-◌, ◌*◌, ◌<◌, ◌≤◌, length, MatchResult, slice_index};
ghost use Rattle.marks.specs.Refusals.{Answers};
ghost use Rattle.marks.specs.Sets.{has};
ghost use Rattle.tables.specs.Columns.{word_bits, put_word, turned, turn_refusal, SameColumns};

use crate::columns::{WORD_BITS, words_per_mark};
use crate::table::Table;
use marks::{Charge, MarkSet, Reason, Refusal};

// Puts a charge's marks into the words, `per` to a mark.
// By index, since one word of a mark is written.
fn put(words: &mut [u64], per: usize, charge: Charge, row: MarkSet)
    requires bound { per ≤ 1024 }
    requires place { charge.number ≤ per * word_bits }
    requires room { (b : ℕ) → has row.bits b ≡ true → b * per + per ≤ length words.old }
    ensures { (i : ℕ) → i < length words.old → slice_index words.new i ≡ put_word per (charge.number - 1) row.bits i (slice_index words.old i) }
{
    let place = charge.place();
    for mark in row.marks() {
        words[mark.place() * per + place / WORD_BITS] |= 1 << (place % WORD_BITS);
    }
}

/// Fills the words with the columns of a table, so that a columns table over them, of the same width and count, is accepted and has the same meaning.
/// Refused: WORD COUNT unless there are exactly as many words as that takes; the words are then as they were.
pub fn turn<T: Table>(table: &T, words: &mut [u64]) -> Result<(), Refusal>
    ensures words { Answers (turn_refusal (T.Table.meaning table.now) (length words.old)) (λ _. words.new ≡ turned (T.Table.meaning table.now)) result }
    ensures columns { MatchResult result (λ _. SameColumns (T.Table.meaning table.now) words.new) (λ _. words.new ≡ words.old) }
{
    let count = table.count();
    let per = words_per_mark(count);
    if words.len() != table.width().get() as usize * per {
        return Err(Refusal::unplaced(Reason::WordCount));
    }
    words.fill(0);
    for charge in Charge::up_to(count) {
        put(words, per, charge, table.row(charge));
    }
    Ok(())
}
