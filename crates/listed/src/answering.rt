// Answering: the lines that are printed for an input.
ghost use Rattle.std.specs.Prelude.{◌≡◌, IfOk};
ghost use Rattle.marks.specs.Refusals.{number_of};
ghost use Rattle.found.specs.Lines.{fault_text};
ghost use Rattle.tables.specs.Packed.{packed_meaning};
ghost use Rattle.listed.specs.Asking.{windowed_query};
ghost use Rattle.listed.specs.Answering.{answer_text, list_text, AnswersAsked};

use crate::asking::{read, sheet_memory};
use crate::printing::{add_end, add_fault, add_set};
use finder::whole_list;
use limits::Size;
use marks::Refusal;
use sheets::Order;
use std::alloc::{AllocError, Global};
use tables::{Packed, Window};

// The line of a refusal.
fn fault(alloc: Global, refusal: Refusal) -> Result<Vec<u8>, AllocError>
    ensures { IfOk result (λ text. text.items ≡ fault_text (number_of refusal.reason) refusal.first refusal.second) }
{
    let mut text = Vec::new(alloc);
    add_fault(&mut text, refusal)?;
    Ok(text)
}

// The lines of the list that an order asks for of charges.
fn list(alloc: Global, order: Order, charges: &Packed<'_>) -> Result<Vec<u8>, AllocError>
    ensures { IfOk result (λ text. text.items ≡ list_text (windowed_query (packed_meaning charges.now.width.number charges.now.rows.now) order.support.number order.size order.first.number order.count)) }
{
    let window = Window::new(*charges, order.first, order.count);
    let list = whole_list(alloc, &window, &Size::new(order.size), order.support)?;
    let mut text = Vec::new(alloc);
    for found in &list.records {
        add_set(&mut text, found)?;
    }
    add_end(&mut text, list.records.len() as u64, list.opened)?;
    Ok(text)
}

/// What is printed for an input: the line of its fault, or else a line for each set of the list that it asks for, and the end line.
/// The one error is want of memory, which is no fault of the input.
pub fn answer(alloc: Global, input: &[u8]) -> Result<Vec<u8>, AllocError>
    ensures text { IfOk result (λ text. text.items ≡ answer_text input.now) }
    ensures asked { IfOk result (λ text. AnswersAsked input.now text.items) }
{
    let mut memory = sheet_memory(alloc)?;
    match read(input, &mut memory) {
        Ok(asked) => list(alloc, asked.order, &asked.charges(&memory)),
        Err(refusal) => fault(alloc, refusal),
    }
}
