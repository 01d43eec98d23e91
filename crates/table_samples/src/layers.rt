// Layers at their edges, and piles of them.
use crate::piles::{Pile, row_through};
use marks::{Charge, MarkSet, Reason, Refusal, Width};
use std::alloc::{AllocError, Global};
use std::test::Fail;
use tables::{Choice, Columns, Packed, Reverse, Selection, Table, Window, turn};

// The charges 1 2 4, 1 2, 2 3, 1 2 4 and 3 5.
const CHARGES: [u8; 20] = [
    11, 0, 0, 0, 3, 0, 0, 0, 6, 0, 0, 0, 11, 0, 0, 0, 20, 0, 0, 0,
];

fn packed() -> Result<Packed<'static>, Refusal> {
    Packed::new(&CHARGES, Width::new(5)?)
}

// The marks of a charge, by its number.
fn row<T: Table>(table: &T, number: u64) -> Result<u32, Refusal> {
    Ok(table.row(Charge::new(number)?).bits())
}

fn rows<T: Table>(table: &T, [a, b, c, d]: [u64; 4]) -> Result<[u32; 4], Refusal> {
    Ok([
        row(table, a)?,
        row(table, b)?,
        row(table, c)?,
        row(table, d)?,
    ])
}

// The count of a window over the five charges, and its rows of charges 1, 3, 6 and 65,536.
fn seen(first: u64, count: u32) -> Result<(u32, [u32; 4]), Refusal> {
    let window = Window::new(packed()?, Charge::new(first)?, count);
    Ok((window.count(), rows(&window, [1, 3, 6, 65_536])?))
}

#[test]
fn windows(rt: HostRuntime) {
    let windows = [
        seen(1, 5),
        seen(2, 3),
        seen(2, 2),
        seen(5, 65_536),
        seen(6, 3),
        seen(65_536, u32::MAX),
        seen(1, 0),
    ];
    let none = Ok((0, [0; 4]));
    assert_eq!(rt;
        windows,
        [
            Ok((5, [11, 6, 0, 0])),
            Ok((3, [3, 11, 0, 0])),
            Ok((2, [3, 0, 0, 0])),
            Ok((1, [20, 0, 0, 0])),
            none,
            none,
            none,
        ]
    );
}

#[test]
fn reversed_marks(rt: HostRuntime) -> Result<(), Fail> {
    let reverse = Reverse::new(packed()?, MarkSet::from_bits(0xffff_fff1));
    assert_eq!(rt; (reverse.width().get(), reverse.count()), (5, 5));
    assert_eq!(rt; rows(&reverse, [1, 5, 6, 65_536])?, [26, 5, 0, 0]);
    Ok(())
}

// The width of a selection of these marks over the five charges, and the rows of charges 1, 2, 5 and 6.
fn selected(marks: &[u64]) -> Result<(u32, [u32; 4]), Refusal> {
    let selection = Selection::new(packed()?, Choice::new(marks)?);
    Ok((selection.width().get(), rows(&selection, [1, 2, 5, 6])?))
}

// A chosen mark may stand above the width: no charge has it.
#[test]
fn selections(rt: HostRuntime) {
    let selections = [selected(&[4, 2]), selected(&[6, 32, 3])];
    assert_eq!(rt; selections, [Ok((2, [3, 2, 0, 0])), Ok((3, [0, 0, 4, 0]))]);
}

// The refusal of a choice of the marks 1 to `size` and of more numbers, if it is refused.
fn refusal(heap: Global, size: u64, more: &[u64]) -> Result<Option<Refusal>, AllocError> {
    let numbers: Vec<u64> = (1..=size).chain(more.iter().copied()).collect(heap)?;
    Ok(Choice::new(numbers.as_slice()).err())
}

// A number out of range is refused before one that comes twice and stands left of it.
#[test]
fn choices(rt: HostRuntime) -> Result<(), Fail> {
    for (size, more, fault) in [
        (0, [].as_slice(), Some((Reason::BadChoice, 1))),
        (0, [32].as_slice(), None),
        (32, [].as_slice(), None),
        (33, [].as_slice(), Some((Reason::Range, 33))),
        (32, [5].as_slice(), Some((Reason::BadChoice, 33))),
        (31, [1].as_slice(), Some((Reason::BadChoice, 32))),
        (3, [0, 5].as_slice(), Some((Reason::Range, 4))),
        (3, [1, 33].as_slice(), Some((Reason::Range, 5))),
        (1, [4_294_967_298, 3].as_slice(), Some((Reason::Range, 2))),
    ] {
        let due = fault.map(|(reason, place)| Refusal::at(reason, place));
        assert_eq!(rt; refusal(rt.alloc(), size, more)?, due, "{size}, {more:?}");
    }
    Ok(())
}

// The numbers 1 to 32 with 0 in the place of 4, and 1 to 40 with 1 there: of several out of range, the leftmost is refused.
#[test]
fn longer_choices(rt: HostRuntime) -> Result<(), Fail> {
    for (fourth, last, place) in [(0, 32, 4), (1, 40, 33)] {
        let numbers = (1..=3).chain([fourth]).chain(5..=last);
        let choice: Vec<u64> = numbers.collect(rt.alloc())?;
        let due = Some(Refusal::at(Reason::Range, place));
        assert_eq!(rt; Choice::new(choice.as_slice()).err(), due, "{last}");
    }
    Ok(())
}

// The first five rows of a selection over reversed marks over a window over a table.
fn piled<T: Table + Copy>(heap: Global, table: T) -> Result<Vec<u32>, Fail> {
    let pile = Pile {
        first: Charge::new(2)?,
        count: 4,
        flipped: MarkSet::from_bits(0b10011),
        choice: Choice::new(&[3, 5, 1, 31])?,
    };
    let rows = Charge::up_to(5).map(|charge| row_through(table, pile, charge).bits());
    Ok(rows.collect(heap)?)
}

#[test]
fn piles(rt: HostRuntime) -> Result<(), Fail> {
    let mut words = [0; 5];
    turn(&packed()?, &mut words)?;
    let columns = Columns::new(&words, Width::new(5)?, 5)?;
    let rows = piled(rt.alloc(), packed()?)?;
    assert_eq!(rt; rows.as_slice(), [2, 7, 2, 5, 0].as_slice());
    assert_eq!(rt; piled(rt.alloc(), columns)?, rows);
    Ok(())
}
