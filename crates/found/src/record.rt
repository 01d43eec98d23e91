// Found records.
ghost use Rattle.std.specs.Prelude.{◌≡◌, length};
ghost use Rattle.marks.specs.Refusals.{Answers, Kept};
ghost use Rattle.found.specs.Records.{record_bytes, record_at, written, slot_refusal};

use marks::{MarkSet, Reason, Refusal};

/// How many bytes a record has.
pub const RECORD_BYTES: usize = 24;

/// The bytes of a record: set (4), support (4), ordinal (8) and opened (8), each low byte first.
pub type RecordBytes = [u8; RECORD_BYTES];

/// A set that was found, its support, its place in the list, and how many nodes had been opened.
#[derive(Clone, Copy, PartialEq, Eq, Debug)]
pub struct Record {
    pub set: MarkSet,
    pub support: u32,
    pub ordinal: u64,
    pub opened: u64,
}

impl Record {
    /// The bytes of the record; no other record has the same.
    pub fn to_bytes(self) -> RecordBytes
        ensures value { result ≡ record_bytes self }
        ensures back { record_at result 0 ≡ self }
    {
        // By ranges, which are the layout itself.
        let mut bytes = [0; RECORD_BYTES];
        bytes[0..4].copy_from_slice(&self.set.bits().to_le_bytes());
        bytes[4..8].copy_from_slice(&self.support.to_le_bytes());
        bytes[8..16].copy_from_slice(&self.ordinal.to_le_bytes());
        bytes[16..RECORD_BYTES].copy_from_slice(&self.opened.to_le_bytes());
        bytes
    }

    /// The record that the bytes hold.
    pub fn from_bytes(bytes: &RecordBytes) -> Record
        ensures { result ≡ record_at bytes.now 0 }
    {
        // Set and support are the first two fours, ordinal and opened the last two eights.
        let (fours, _) = bytes.as_chunks::<4>();
        let (eights, _) = bytes.as_chunks::<8>();
        Record {
            set: MarkSet::from_bits(u32::from_le_bytes(fours[0])),
            support: u32::from_le_bytes(fours[1]),
            ordinal: u64::from_le_bytes(eights[1]),
            opened: u64::from_le_bytes(eights[2]),
        }
    }

    /// Writes the record into the first bytes of the slot, and leaves the rest.
    /// Refused: SHORT SLOT if the slot is shorter than a record; it is then as it was.
    pub fn write(self, slot: &mut [u8]) -> Result<(), Refusal>
        ensures answer { Answers (slot_refusal (length slot.old)) (λ _. slot.new ≡ written self slot.old) result }
        ensures kept { Kept slot.old slot.new result }
    {
        if slot.len() < RECORD_BYTES {
            return Err(Refusal::unplaced(Reason::ShortSlot));
        }
        slot[0..RECORD_BYTES].copy_from_slice(&self.to_bytes());
        Ok(())
    }
}
