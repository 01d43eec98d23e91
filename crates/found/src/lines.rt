// The printed lines.
ghost use Rattle.std.specs.Prelude.{◌≡◌, ◌+◌, ◌≤◌, ◌++◌, length};
ghost use Rattle.marks.specs.Refusals.{Kept, number_of};
ghost use Rattle.found.specs.Lines.{line_text, fault_text, end_text, HandedOut};

use arrayvec::ArrayString;
use itoa::{Buffer, Integer};
use marks::{MarkSet, Reason, Refusal};

// No line is longer: 32 marks of at most two digits, each with a blank, and a support of ten digits in brackets.
const LONGEST: usize = 109;

// A line while it is written. Not by `write!`: its contract lets it fail where there is room, and then no line is promised.
type Text = ArrayString<LONGEST>;

// Adds a number in decimal digits.
fn add_number<I: Integer>(text: &mut Text, number: I)
    requires { length text.old.bytes + I.MAX_STR_LEN ≤ LONGEST }
    ensures value { text.new.bytes ≡ text.old.bytes ++ I.text number }
    ensures size { length text.new.bytes ≤ length text.old.bytes + I.MAX_STR_LEN }
{
    text.push_str(Buffer::new().format(number));
}

// Adds a name and a number.
fn add_field<I: Integer>(text: &mut Text, name: &str, number: I)
    requires { length text.old.bytes + length name.now + I.MAX_STR_LEN ≤ LONGEST }
    ensures value { text.new.bytes ≡ text.old.bytes ++ (name.now ++ I.text number) }
    ensures size { length text.new.bytes ≤ length text.old.bytes + length name.now + I.MAX_STR_LEN }
{
    text.push_str(name);
    add_number(text, number);
}

// Hands a text out into memory, and answers how many bytes it has.
fn hand_out(text: &Text, memory: &mut [u8]) -> Result<usize, Refusal>
    ensures answer { HandedOut text.now.bytes memory.old memory.new result }
    ensures kept { Kept memory.old memory.new result }
{
    let size = text.len();
    if size > memory.len() {
        return Err(Refusal::unplaced(Reason::NoPlace));
    }
    memory[0..size].copy_from_slice(text.as_str().as_bytes());
    Ok(size)
}

/// Writes the line of a found set: each mark and a blank, then the support in brackets and a line end; answers how many bytes.
/// Refused: NO PLACE exactly if the line does not fit; then the memory is as it was. Bytes past the line are as they were.
pub fn line(set: MarkSet, support: u32, memory: &mut [u8]) -> Result<usize, Refusal>
    ensures answer { HandedOut (line_text set.bits support) memory.old memory.new result }
    ensures kept { Kept memory.old memory.new result }
{
    let mut text = Text::new();
    for mark in set.marks() {
        add_number(&mut text, mark.get());
        text.push_str(" ");
    }
    add_field(&mut text, "(", support);
    text.push_str(")\n");
    hand_out(&text, memory)
}

/// Writes the line of a refusal: `fault`, its number, and its two places; answers how many bytes.
/// Refused: NO PLACE exactly if the line does not fit; then the memory is as it was. Bytes past the line are as they were.
pub fn fault_line(refusal: Refusal, memory: &mut [u8]) -> Result<usize, Refusal>
    ensures answer { HandedOut (fault_text (number_of refusal.reason) refusal.first refusal.second) memory.old memory.new result }
    ensures kept { Kept memory.old memory.new result }
{
    let mut text = Text::new();
    add_field(&mut text, "fault ", refusal.number());
    add_field(&mut text, " line ", refusal.first());
    add_field(&mut text, " column ", refusal.second());
    text.push_str("\n");
    hand_out(&text, memory)
}

/// Writes the last line of a list: how many sets it has, and how many nodes were opened; answers how many bytes.
/// Refused: NO PLACE exactly if the line does not fit; then the memory is as it was. Bytes past the line are as they were.
pub fn end_line(sets: u64, opened: u64, memory: &mut [u8]) -> Result<usize, Refusal>
    ensures answer { HandedOut (end_text sets opened) memory.old memory.new result }
    ensures kept { Kept memory.old memory.new result }
{
    let mut text = Text::new();
    add_field(&mut text, "sets ", sets);
    add_field(&mut text, " opened ", opened);
    text.push_str("\n");
    hand_out(&text, memory)
}
