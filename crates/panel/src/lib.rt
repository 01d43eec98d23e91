// The panel's calls: reading a sheet, and listing, for programs in C.
#![tactic(auto)]

ghost use Rattle.std.specs.Prelude.{◌≡◌, length};
ghost use Rattle.panel.specs.Answers.{panel_answer, IsToldApart};
ghost use Rattle.panel.specs.Listing.{packed_query, list_result, list_memory, HoldsList};
ghost use Rattle.panel.specs.Reading.{read_result, read_memory, ReadsSheets};

mod answer;
mod listing;
mod reading;

use answer::number_of_answer;
use listing::list;
use reading::read;

/// Packs each charge of a sheet of this width into four bytes of memory, and answers how many it packed, or 2^40 plus a refusal's number.
/// Each line but an empty one is a charge; a charge without marks is the line `0`.
/// Refused: RANGE for the width, and memory is then as it was; then as `read_sheet` refuses.
/// The charges of the lines before a fault stay packed; every other byte of memory is as it was.
#[unsafe(no_mangle)]
#[tactic(auto, using(crate::proofs::ToldReading::read_apart, crate::proofs::ToldReading::reads_sheets))]
pub extern "C" fn host_read(text: &[u8], width: u64, memory: &mut [u8]) -> u64
    ensures answer { result ≡ panel_answer (read_result width (length memory.old) text.now) }
    ensures memory { memory.new ≡ read_memory width text.now memory.old }
    ensures apart { IsToldApart (read_result width (length memory.old) text.now) result }
    ensures sheets { ReadsSheets width text.now memory.old memory.new result }
{
    number_of_answer(read(text, width, memory))
}

/// Writes the list of a packed table as found records, one after another, and answers how many there are, or 2^40 plus a refusal's number.
/// The list is of sets of at most `most` marks that at least `support` charges hold.
/// Refused: RANGE for the width, then for the support; RAGGED, TOO MANY, STRAY as a packed table is, and memory is then as it was; NO PLACE if records are left over, after as many as have place.
/// Every byte past the last record that is written is as it was.
#[unsafe(no_mangle)]
#[tactic(auto, using(crate::proofs::ToldListing::list_apart, crate::proofs::ToldListing::holds_list))]
pub extern "C" fn host_list(
    bytes: &[u8],
    width: u64,
    support: u64,
    most: u64,
    memory: &mut [u8],
) -> u64
    ensures answer { result ≡ panel_answer (list_result bytes.now width support most (length memory.old)) }
    ensures memory { memory.new ≡ list_memory bytes.now width support most memory.old }
    ensures apart { IsToldApart (list_result bytes.now width support most (length memory.old)) result }
    ensures listed { HoldsList (packed_query bytes.now width support most) (length memory.old) memory.new result }
{
    number_of_answer(list(bytes, width, support, most, memory))
}
