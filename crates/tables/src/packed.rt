// The packed table.
ghost use Rattle.std.specs.Prelude.{◌≡◌, ℕ, ◌^◌, ◌<◌, ◌≤◌, length, slice_index};
ghost use Rattle.marks.specs.Numbers.{most_charges};
ghost use Rattle.marks.specs.Places.{first_place};
ghost use Rattle.marks.specs.Refusals.{Answers};
ghost use Rattle.tables.specs.Packed.{chunk_row, chunk_rows, packed_rows, strays, packed_refusal, packed_meaning};
ghost use Rattle.tables.specs.Chunked.{packed_proper};

use crate::table::Table;
use marks::{Charge, MOST_CHARGES, MarkSet, Reason, Refusal, Width, first_passing};

/// How many bytes a row has.
pub const ROW_BYTES: usize = 4;

/// A table over lent bytes, four to a charge, low byte first.
#[derive(Clone, Copy, Debug)]
pub struct Packed<'a> {
    rows: &'a [[u8; ROW_BYTES]],
    width: Width,
    ghost few: { length rows.now ≤ most_charges },
    ghost within: { (k : ℕ) → slice_index (chunk_rows rows.now) k < 2 ^ width.number },
}

// The row that the bytes of a charge hold.
fn row_at(bytes: &[u8; ROW_BYTES]) -> MarkSet
    ensures { result.bits ≡ chunk_row bytes.now }
{
    MarkSet::from_bits(u32::from_le_bytes(*bytes))
}

// The first charge that has a mark that is not among `all`.
fn first_stray(rows: &[[u8; ROW_BYTES]], all: MarkSet) -> Option<u64>
    ensures { result ≡ first_place (strays all.bits) (chunk_rows rows.now) }
{
    first_passing(rows, |bytes| !row_at(bytes).is_part_of(all))
}

impl<'a> Packed<'a> {
    /// The table of this width over the bytes.
    /// Refused: RAGGED if their number is no multiple of 4; TOO MANY above 65,536 charges; STRAY, at the first charge that has a mark above the width.
    #[tactic(auto, using(crate::specs::Chunked::rows_of_chunks, crate::proofs::Packing::rows_within), unfolding(crate::specs::Packed::packed_refusal))]
    pub fn new(bytes: &'a [u8], width: Width) -> Result<Packed<'a>, Refusal>
        ensures { Answers (packed_refusal bytes.now width.number) (λ p. packed_meaning p.width.number p.rows.now ≡ record { width = width.number; rows = packed_rows bytes.now }) result }
    {
        let (rows, rest) = bytes.as_chunks::<ROW_BYTES>();
        if !rest.is_empty() {
            return Err(Refusal::unplaced(Reason::Ragged));
        }
        if rows.len() > MOST_CHARGES as usize {
            return Err(Refusal::unplaced(Reason::TooMany));
        }
        if let Some(charge) = first_stray(rows, MarkSet::up_to(width)) {
            return Err(Refusal::at(Reason::Stray, charge));
        }
        Ok(Packed { rows, width })
    }
}

impl Table for Packed<'_> {
    ghost meaning = { λ p. packed_meaning p.width.number p.rows.now };

    fn width(&self) -> Width {
        self.width
    }

    fn count(&self) -> u32 {
        self.rows.len() as u32
    }

    // By index, once the charge is known to be there: by `get` each row costs one test more.
    fn row(&self, charge: Charge) -> MarkSet {
        if charge.get() > self.count() {
            return MarkSet::empty();
        }
        row_at(&self.rows[charge.place()])
    }

    ghost proper = { λ p. packed_proper p.width.number p.rows.now p.width.range p.few p.within };
}
