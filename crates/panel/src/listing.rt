// Listing into lent memory.
ghost use Rattle.std.specs.Prelude.{◌≡◌, length};
ghost use Rattle.marks.specs.Refusals.{Answers};
ghost use Rattle.closed.specs.Closed.{query};
ghost use Rattle.finder.specs.Found.{how_many};
ghost use Rattle.panel.specs.Listing.{left_over, listed_into, list_result, list_memory};

use finder::{Finder, Step};
use found::RECORD_BYTES;
use limits::{Limit, Size};
use marks::{Reason, Refusal, Support, Width};
use tables::{Packed, Table};

// Works a finder with one slot of memory after another until the list is out or no slot is left, and answers how many sets the list has.
// Whether records are left over is asked with a slot that lies beside the memory.
fn write_list<T: Table, W: Limit>(
    table: &T,
    limit: &W,
    support: Support,
    memory: &mut [u8],
) -> Result<usize, Refusal>
    ensures answer { Answers (left_over (query (T.Table.meaning table.now) (W.Limit.allowed limit.now) support.number) (length memory.old)) (λ count. count ≡ how_many (query (T.Table.meaning table.now) (W.Limit.allowed limit.now) support.number)) result }
    ensures memory { memory.new ≡ listed_into (query (T.Table.meaning table.now) (W.Limit.allowed limit.now) support.number) memory.old }
{
    let mut finder = Finder::begin(table, limit, support);
    let places = memory.len() / RECORD_BYTES;
    // No call is refused, since each slot has the length of a record. By offset: of memory that is lent as chunks no proof learns what it then holds.
    for place in 0..places {
        let start = RECORD_BYTES * place;
        match finder
            .next(&mut memory[start..start + RECORD_BYTES])
            .unwrap()
        {
            Step::Found => {}
            Step::End { .. } => return Ok(place),
        }
    }
    let mut spare = [0; RECORD_BYTES];
    match finder.next(&mut spare).unwrap() {
        Step::Found => Err(Refusal::unplaced(Reason::NoPlace)),
        Step::End { .. } => Ok(places),
    }
}

// The list of a packed table, with its numbers as C gives them.
pub(crate) fn list(
    bytes: &[u8],
    width: u64,
    support: u64,
    most: u64,
    memory: &mut [u8],
) -> Result<usize, Refusal>
    ensures answer { result ≡ list_result bytes.now width support most (length memory.old) }
    ensures memory { memory.new ≡ list_memory bytes.now width support most memory.old }
{
    let width = Width::new(width)?;
    let support = Support::new(support)?;
    let table = Packed::new(bytes, width)?;
    write_list(&table, &Size::new(most), support, memory)
}
