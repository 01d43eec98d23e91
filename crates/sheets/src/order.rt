// Reading the order line, which stands before a sheet.
ghost use Rattle.std.specs.Prelude.{◌≡◌, ◌+◌, ◌<◌, ◌≤◌, length, drop, IfOk};
ghost use Rattle.marks.specs.declared.refusal.Reason.TheVariants.{Range};
ghost use Rattle.marks.specs.Refusals.{Answers, placed_at_two};
ghost use Rattle.sheets.specs.Digits.{leading_digits};
ghost use Rattle.sheets.specs.Reading.{worth};
ghost use Rattle.sheets.specs.OrderLines.{number_end, end_refusal, bounds_refusal, order_refusal, Says, ReadsRightLines};

use crate::digits::worth;
use marks::{Charge, MOST_CHARGES, MOST_MARKS, Number, Reason, Refusal, Support, Width};

// A number of an order line has no more digits than this.
const MOST_DIGITS: usize = 5;

/// What an order line asks for.
#[derive(Clone, Copy, PartialEq, Eq, Debug)]
pub struct Order {
    /// The width of the sheet.
    pub width: Width,
    /// The least support of the sets that are asked for.
    pub support: Support,
    /// How many marks they have at most.
    pub size: u64,
    /// The first charge of the window.
    pub first: Charge,
    /// How many charges the window has at most.
    pub count: u32,
    /// The place of the first byte of the sheet in the text: bytes count from 1.
    pub sheet: usize,
}

// A number of an order line, and the column of its first byte.
#[derive(Clone, Copy)]
struct Numeral {
    value: u32,
    column: u64,
}

impl Numeral {
    fn out_of_range(self) -> Refusal
        ensures { result ≡ placed_at_two Range 0 self.column }
    {
        Refusal::at_line(Reason::Range, 0, self.column)
    }

    // The number of a kind.
    fn of_kind<K, const MOST: u32>(self) -> Result<Number<K, MOST>, Refusal>
        ensures { Answers (bounds_refusal 1 MOST self.value self.column) (λ n. n.number ≡ self.value) result }
    {
        Number::new(u64::from(self.value)).map_err(|_| self.out_of_range())
    }

    // The number, if it is no more than `most`.
    fn up_to(self, most: u32) -> Result<u32, Refusal>
        ensures { Answers (bounds_refusal 0 most self.value self.column) (λ n. n ≡ self.value) result }
    {
        if self.value > most {
            return Err(self.out_of_range());
        }
        Ok(self.value)
    }
}

// The digits of the number at the front of a text: none if no number stands there.
fn leading_digits(text: &[u8]) -> &[u8]
    ensures { result.now ≡ leading_digits text.now }
{
    // After a leading 0 a number goes no further.
    let most = match text {
        [b'0', ..] => 1,
        _ => MOST_DIGITS,
    };
    let size = text
        .iter()
        .take(most)
        .take_while(|byte| byte.is_ascii_digit())
        .count();
    &text[..size]
}

// The numbers of an order line, taken from the text one after another.
#[derive(Drop)]
struct Numbers<'a> {
    text: &'a [u8],
    // How many bytes are taken.
    taken: usize,
    ghost within: { taken ≤ length text.now },
}

impl Numbers<'_> {
    // Takes the next number, and the byte that has to end it.
    fn take(&mut self, end: u8) -> Result<Numeral, Refusal>
        requires { 0 < end }
        ensures answer { Answers (end_refusal end self.old.text.now self.old.taken) (λ n. (n.value ≡ worth (leading_digits (drop self.old.taken self.old.text.now))) × (n.column ≡ self.old.taken + 1) × (self.new.taken ≡ number_end self.old.text.now self.old.taken + 1)) result }
        ensures text { self.new.text.now ≡ self.old.text.now }
    {
        let rest = &self.text[self.taken..];
        let digits = leading_digits(rest);
        let last = self.taken + digits.len();
        match rest.get(digits.len()) {
            Some(byte) if *byte == end && !digits.is_empty() => {
                let numeral = Numeral {
                    value: worth(digits),
                    column: self.taken as u64 + 1,
                };
                self.taken = last + 1;
                Ok(numeral)
            }
            _ => Err(Refusal::at_line(Reason::Form, 0, last as u64 + 1)),
        }
    }
}

/// Reads the order line at the front of a text; what stands after its line end is not looked at.
/// Refused: FORM at line 0 and the column of the first byte that no right line could have after the bytes before it, or one past the end; then RANGE at line 0 and the column of the first number out of range.
#[tactic(auto, using(crate::proofs::Starts::starts), unfolding(crate::specs::OrderLines::order_refusal))]
pub fn read_order(text: &[u8]) -> Result<Order, Refusal>
    ensures answer { Answers (order_refusal text.now) (Says text.now) result }
    ensures lines { ReadsRightLines text.now result }
    ensures place { IfOk result (λ order. (1 ≤ order.sheet) × (order.sheet ≤ length text.now + 1)) }
{
    let mut numbers = Numbers { text, taken: 0 };
    let width = numbers.take(b' ')?;
    let support = numbers.take(b' ')?;
    let size = numbers.take(b' ')?;
    let first = numbers.take(b' ')?;
    let count = numbers.take(b'\n')?;
    Ok(Order {
        width: width.of_kind()?,
        support: support.of_kind()?,
        size: u64::from(size.up_to(MOST_MARKS)?),
        first: first.of_kind()?,
        count: count.up_to(MOST_CHARGES)?,
        sheet: numbers.taken + 1,
    })
}
