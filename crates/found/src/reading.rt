// Reading found bytes back.
ghost use Rattle.std.specs.Prelude.{◌≡◌, ◌/◌, ◌≤◌, map, length};
ghost use Rattle.marks.specs.Memory.{put_in_front};
ghost use Rattle.marks.specs.Orders.{Before};
ghost use Rattle.marks.specs.Refusals.{Answers};
ghost use Rattle.found.specs.Records.{record_length, record_at, read_back_refusal, read_back_memory, TellsListOrder};
ghost use Rattle.std.proofs.Common.{rules};

use crate::record::{RECORD_BYTES, Record, RecordBytes};
use marks::{Reason, Refusal, StrictOrder, first_unordered};

// By the set, in list order, for the check of neighbours. Not `PartialOrd`, which has to tell apart records of one set.
impl StrictOrder for Record {
    ghost before = { λ p q. Before p.set.bits q.set.bits };

    ghost irreflexive = { Prim.search rules };

    ghost transitive = { Prim.search rules };

    fn is_before(&self, other: &Record) -> bool {
        self.set.is_before(&other.set)
    }
}

// Puts the records of so many chunks into the front of memory.
fn fill(chunks: &[RecordBytes], memory: &mut [Record])
    requires { length chunks.now ≤ length memory.old }
    ensures { memory.new ≡ put_in_front (map (λ chunk. record_at chunk 0) chunks.now) memory.old }
{
    // By index: of what is written through an `iter_mut` beside the chunks, a proof learns only how much there is.
    for (index, chunk) in chunks.iter().enumerate() {
        memory[index] = Record::from_bytes(chunk);
    }
}

/// Turns found bytes into records in memory, and answers how many.
/// Refused: RAGGED unless the bytes are whole records; NO PLACE if the memory is too short: then nothing is written. OUT OF ORDER at the first record whose set does not come after the one before it
/// in list order: then all records are written. Memory past the records keeps what it held.
pub fn read_back(bytes: &[u8], memory: &mut [Record]) -> Result<usize, Refusal>
    ensures answer { Answers (read_back_refusal bytes.now (length memory.old)) (λ n. n ≡ length bytes.now / record_length) result }
    ensures memory { memory.new ≡ read_back_memory bytes.now memory.old }
    ensures order { TellsListOrder }
{
    let (chunks, stray) = bytes.as_chunks::<RECORD_BYTES>();
    if !stray.is_empty() {
        return Err(Refusal::unplaced(Reason::Ragged));
    }
    let count = chunks.len();
    if count > memory.len() {
        return Err(Refusal::unplaced(Reason::NoPlace));
    }
    fill(chunks, memory);
    // The place of the fault, or none, decides between the two answers of the call.
    match first_unordered(&memory[0..count]) {
        Some(place) => Err(Refusal::at(Reason::OutOfOrder, place as u64)),
        None => Ok(count),
    }
}
