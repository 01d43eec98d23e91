// Reading what is asked: an order line, and the sheet behind it.
ghost use Rattle.std.specs.Prelude.{◌≡◌, IfOk, length};
ghost use Rattle.marks.specs.Refusals.{Answers};
ghost use Rattle.tables.specs.Packed.{packed_rows, packed_meaning};
ghost use Rattle.listed.specs.Asking.{input_refusal, sheet_room, rows_in, charge_bytes, Asks, AsksUnlessFaulty, IsPacked, IsUnderstood};

use marks::{Reason, Refusal};
use sheets::{Order, read_order, read_sheet};
use std::alloc::{AllocError, Global};
use tables::{Packed, ROW_BYTES};

/// An input has fewer bytes than this.
pub const INPUT_LIMIT: usize = 65_536;

// A sheet has no more charges than this.
const MOST_ROWS: usize = 4_096;

/// What an input asks for, and how many charges its sheet has.
#[derive(Clone, Copy, Debug)]
pub(crate) struct Asked {
    pub order: Order,
    pub count: usize,
}

impl Asked {
    /// The table of its charges: no rule refuses what a sheet was packed into.
    pub(crate) fn charges(self, memory: &[u8]) -> Packed<'_>
        requires { IsPacked memory.now self }
        ensures { packed_meaning result.width.number result.rows.now ≡ record { width = self.order.width.number; rows = packed_rows (charge_bytes memory.now self) } }
    {
        Packed::new(&memory[0..ROW_BYTES * self.count], self.order.width).unwrap()
    }
}

/// Memory for the charges of a sheet.
pub(crate) fn sheet_memory(alloc: Global) -> Result<Vec<u8>, AllocError>
    ensures { IfOk result (λ memory. length memory.items ≡ sheet_room) }
{
    vec![in alloc; 0; ROW_BYTES * MOST_ROWS]
}

/// Reads an order line and the sheet behind it, whose charges it packs into the front of memory.
/// Refused: LONG from 65,536 bytes on; then as the order line; then as the sheet, whose lines count from 1 after the order line.
pub(crate) fn read(input: &[u8], memory: &mut [u8]) -> Result<Asked, Refusal>
    requires { length memory.old ≡ sheet_room }
    ensures answer { Answers (input_refusal input.now) (Asks input.now) result }
    ensures charges { IfOk result (λ asked. IsPacked memory.new asked × (packed_rows (charge_bytes memory.new asked) ≡ rows_in input.now)) }
    ensures understood { IsUnderstood input.now }
    ensures faults { AsksUnlessFaulty input.now }
{
    if input.len() >= INPUT_LIMIT {
        return Err(Refusal::unplaced(Reason::Long));
    }
    let order = read_order(input)?;
    let count = read_sheet(&input[order.sheet - 1..], order.width, memory)?;
    Ok(Asked { order, count })
}
