// The numbers that everything else speaks in: marks, charges, widths and supports. Each is a type of its own, whose range is part of the type.
ghost use Rattle.std.specs.Prelude.{◌≡◌, ◌-◌, ◌<◌, ⊤};
ghost use Rattle.marks.specs.Numbers.{InRange};
ghost use Rattle.marks.specs.Refusals.{Answers, range_refusal};

use crate::refusal::{Reason, Refusal};
use std::alloc::AllocError;
use std::fmt;
use std::marker::PhantomData;

pub mod charge;
pub mod mark;
pub mod support;
pub mod width;

/// Marks, and so widths, are 1 to this.
pub const MOST_MARKS: u32 = 32;

/// How many marks there can be, as the length of an array that has something for each.
pub const MARKS: usize = MOST_MARKS as usize;

/// Charges, and so supports, are 1 to this.
pub const MOST_CHARGES: u32 = 65_536;

/// A kind of numbers.
pub trait Kind {
    /// What a number of the kind is called where it is shown by `{:?}`.
    const NAME: &'static str;
}

/// A number of a kind, 1 to `MOST`. The kind keeps numbers apart that count different things.
#[derive_where(PartialEq, Eq)]
pub struct Number<K, const MOST: u32> {
    number: u32,
    kind: PhantomData<K>,
    ghost range: { InRange MOST number },
}

// By hand, since none can be derived for a type with a parameter and a ghost field (`derive-over-ghost-field`).
impl<K, const MOST: u32> Clone for Number<K, MOST> {
    ghost is_clone = { λ x y. y ≡ x };

    ghost is_infallible = { λ _. ⊤ };

    fn clone(&self) -> Result<Number<K, MOST>, AllocError> {
        Ok(*self)
    }
}

impl<K, const MOST: u32> Copy for Number<K, MOST> {}

// By hand, since a derived one names the type that all kinds share, and not the kind.
impl<K: Kind, const MOST: u32> fmt::Debug for Number<K, MOST> {
    fn fmt<W: fmt::Write>(&self, f: &mut fmt::Formatter<W>) -> fmt::Result {
        f.debug_struct(K::NAME)
            .field("number", &self.number)
            .finish()
    }
}

// `new` and `get`, as the library's `NonZeroU32` has them.
impl<K, const MOST: u32> Number<K, MOST> {
    /// The number of the kind; refused RANGE outside 1 to `MOST`.
    pub fn new(number: u64) -> Result<Number<K, MOST>, Refusal>
        ensures { Answers (range_refusal MOST number) (λ n. n.number ≡ number) result }
    {
        if number < 1 || number > u64::from(MOST) {
            return Err(Refusal::unplaced(Reason::Range));
        }
        Ok(Number::of(number as u32))
    }

    // The number of the kind.
    pub(crate) fn of(number: u32) -> Number<K, MOST>
        requires { InRange MOST number }
        ensures { result.number ≡ number }
    {
        Number {
            number,
            kind: PhantomData,
        }
    }

    /// The number itself.
    pub fn get(self) -> u32
        ensures value { result ≡ self.number }
        ensures range { InRange MOST result }
    {
        self.number
    }

    /// How many numbers of the kind come before this one: its index in a list that has something for each, and a mark's bit in a set.
    pub fn place(self) -> usize
        ensures value { result ≡ self.number - 1 }
        ensures bound { result < MOST }
    {
        self.get() as usize - 1
    }
}
