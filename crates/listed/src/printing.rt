// Adding lines to a text.
ghost use Rattle.std.specs.Prelude.{◌≡◌, ◌++◌, IfOk};
ghost use Rattle.marks.specs.Refusals.{number_of};
ghost use Rattle.found.specs.Lines.{line_text, fault_text, end_text};

use found::{Record, end_line, fault_line, line};
use marks::Refusal;
use std::alloc::AllocError;

// Memory for a line: none is longer than 109 bytes, so none is refused.
const LINE_ROOM: usize = 128;

/// Adds the line of a found set.
pub(crate) fn add_set(text: &mut Vec<u8>, found: &Record) -> Result<(), AllocError>
    ensures { IfOk result (λ _. text.new.items ≡ text.old.items ++ line_text found.now.set.bits found.now.support) }
{
    let mut memory = [0; LINE_ROOM];
    let size = line(found.set, found.support, &mut memory).unwrap();
    text.extend_from_slice(&memory[0..size])
}

/// Adds the line of a refusal.
pub(crate) fn add_fault(text: &mut Vec<u8>, refusal: Refusal) -> Result<(), AllocError>
    ensures { IfOk result (λ _. text.new.items ≡ text.old.items ++ fault_text (number_of refusal.reason) refusal.first refusal.second) }
{
    let mut memory = [0; LINE_ROOM];
    let size = fault_line(refusal, &mut memory).unwrap();
    text.extend_from_slice(&memory[0..size])
}

/// Adds the last line of a list.
pub(crate) fn add_end(text: &mut Vec<u8>, sets: u64, opened: u64) -> Result<(), AllocError>
    ensures { IfOk result (λ _. text.new.items ≡ text.old.items ++ end_text sets opened) }
{
    let mut memory = [0; LINE_ROOM];
    let size = end_line(sets, opened, &mut memory).unwrap();
    text.extend_from_slice(&memory[0..size])
}
