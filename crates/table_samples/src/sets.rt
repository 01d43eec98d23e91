// Sets at their edges.
use marks::{Mark, MarkSet, Refusal, Width, first_unordered};
use std::test::Fail;

fn up_to(width: u64) -> Result<u32, Refusal> {
    Ok(MarkSet::up_to(Width::new(width)?).bits())
}

fn below(mark: u64) -> Result<u32, Refusal> {
    Ok(MarkSet::below(Mark::new(mark)?).bits())
}

#[test]
fn marks_up_to_a_width_and_below_a_mark(rt: HostRuntime) {
    let bits = [up_to(1), up_to(5), up_to(32), below(1), below(32)];
    assert_eq!(rt;
        bits,
        [Ok(1), Ok(31), Ok(u32::MAX), Ok(0), Ok(u32::MAX >> 1)]
    );
}

#[test]
fn lowest_and_highest(rt: HostRuntime) {
    assert_eq!(rt; MarkSet::empty(), MarkSet::from_bits(0));
    for (bits, lowest, highest) in [
        (0, None, None),
        (1, Some(1), Some(1)),
        (0x8000_0001, Some(1), Some(32)),
        (0x8000_0000, Some(32), Some(32)),
    ] {
        let set = MarkSet::from_bits(bits);
        let ends = (set.lowest().map(Mark::get), set.highest().map(Mark::get));
        assert_eq!(rt; ends, (lowest, highest));
    }
}

// The bits of the set of marks 1 and 32, how many they are, whether it holds marks 1 and 2, and its bits without mark 1.
fn ends() -> Result<(u32, u32, [bool; 2], u32), Refusal> {
    let (first, last) = (Mark::new(1)?, Mark::new(32)?);
    let ends = MarkSet::empty().with(first).with(last);
    let held = [ends.holds(first), ends.holds(Mark::new(2)?)];
    Ok((ends.bits(), ends.size(), held, ends.without(first).bits()))
}

#[test]
fn marks_put_in_and_taken_out(rt: HostRuntime) {
    assert_eq!(rt; ends(), Ok((0x8000_0001, 2, [true, false], 0x8000_0000)));
}

#[test]
fn sets_of_marks(rt: HostRuntime) -> Result<(), Fail> {
    let (a, b) = (MarkSet::from_bits(0b0110), MarkSet::from_bits(0b1010));
    let made = [
        a.union(b).bits(),
        a.intersection(b).bits(),
        a.difference(b).bits(),
        a.symmetric_difference(b).bits(),
    ];
    assert_eq!(rt; made, [0b1110, 0b0010, 0b0100, 0b1100]);
    let parts = (a.is_part_of(b), a.intersection(b).is_part_of(a));
    assert_eq!(rt; parts, (false, true));
    let held = (a.holds(Mark::new(1)?), a.holds(Mark::new(2)?));
    assert_eq!(rt; held, (false, true));
    Ok(())
}

#[test]
fn marks_in_turn(rt: HostRuntime) -> Result<(), Fail> {
    let marks = MarkSet::from_bits(0x8000_0005).marks();
    let numbers: Vec<u32> = marks.map(Mark::get).collect(rt.alloc())?;
    assert_eq!(rt; numbers.as_slice(), [1, 3, 32].as_slice());
    Ok(())
}

// The list order, and where a list is out of it for the first time.
#[test]
fn sets_in_list_order(rt: HostRuntime) {
    let list = [11, 3, 2, 4, 0].map(MarkSet::from_bits);
    let places = [
        first_unordered(&list),
        first_unordered(&[list[0], list[1], list[1]]),
        first_unordered(&[list[1], list[0], list[2]]),
        first_unordered(&list[..1]),
        first_unordered::<MarkSet>(&[]),
    ];
    assert_eq!(rt; places, [None, Some(3), Some(2), None, None]);
}
