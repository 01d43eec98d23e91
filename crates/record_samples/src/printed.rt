// Printed lines at their edges.
use found::{end_line, fault_line, line};
use marks::{MarkSet, Reason, Refusal};
use std::test::Fail;

// Whether a text of so many bytes stands at the front of memory that held stars, and past it nothing was written.
fn shows(memory: &[u8], size: usize, text: &str) -> bool {
    size == text.len()
        && memory
            .strip_prefix(text.as_bytes())
            .is_some_and(|rest| rest.iter().all(|byte| *byte == b'*'))
}

#[test]
fn lines_of_sets(rt: HostRuntime) -> Result<(), Fail> {
    for (bits, support, text) in [
        (11, 2, "1 2 4 (2)\n"),
        (0, 0, "(0)\n"),
        (0x8000_0200, 65_536, "10 32 (65536)\n"),
        (
            u32::MAX,
            u32::MAX,
            "1 2 3 4 5 6 7 8 9 10 11 12 13 14 15 16 17 18 19 20 21 22 23 24 25 26 27 28 29 30 31 32 (4294967295)\n",
        ),
    ] {
        let mut memory = [b'*'; 120];
        let size = line(MarkSet::from_bits(bits), support, &mut memory)?;
        assert!(rt; shows(&memory, size, text), "{text:?}");
    }
    Ok(())
}

#[test]
fn lines_of_refusals(rt: HostRuntime) -> Result<(), Fail> {
    for (refusal, text) in [
        (
            Refusal::at_line(Reason::BadRise, 1, 3),
            "fault 5 line 1 column 3\n",
        ),
        (
            Refusal::unplaced(Reason::DeadEnd),
            "fault 20 line 0 column 0\n",
        ),
        (
            Refusal::at_line(Reason::DeadEnd, u64::MAX, u64::MAX),
            "fault 20 line 18446744073709551615 column 18446744073709551615\n",
        ),
    ] {
        let mut memory = [b'*'; 90];
        let size = fault_line(refusal, &mut memory)?;
        assert!(rt; shows(&memory, size, text), "{text:?}");
    }
    Ok(())
}

#[test]
fn last_lines(rt: HostRuntime) -> Result<(), Fail> {
    for (sets, opened, text) in [
        (5, 9, "sets 5 opened 9\n"),
        (
            u64::MAX,
            u64::MAX,
            "sets 18446744073709551615 opened 18446744073709551615\n",
        ),
    ] {
        let mut memory = [b'*'; 60];
        let size = end_line(sets, opened, &mut memory)?;
        assert!(rt; shows(&memory, size, text), "{text:?}");
    }
    Ok(())
}

// No memory at all, memory that is one byte too short, and memory of the line's size.
#[test]
fn room_for_a_line(rt: HostRuntime) {
    let set = MarkSet::from_bits(11);
    let (mut short, mut exact) = ([b'*'; 9], [b'*'; 10]);
    let answers = [
        line(MarkSet::empty(), 0, &mut []),
        line(set, 2, &mut short),
        line(set, 2, &mut exact),
    ];
    let no_place = Err(Refusal::unplaced(Reason::NoPlace));
    assert_eq!(rt;
        (answers, short, exact),
        ([no_place, no_place, Ok(10)], [b'*'; 9], *b"1 2 4 (2)\n")
    );
}

// Memory that is one byte too short, and memory of the line's size.
#[test]
fn room_for_a_line_of_a_refusal(rt: HostRuntime) {
    let refusal = Refusal::at_line(Reason::BadRise, 1, 3);
    let (mut short, mut exact) = ([b'*'; 23], [b'*'; 24]);
    let answers = [
        fault_line(refusal, &mut short),
        fault_line(refusal, &mut exact),
    ];
    let no_place = Err(Refusal::unplaced(Reason::NoPlace));
    assert_eq!(rt;
        (answers, short, exact),
        (
            [no_place, Ok(24)],
            [b'*'; 23],
            *b"fault 5 line 1 column 3\n"
        )
    );
}

#[test]
fn room_for_a_last_line(rt: HostRuntime) {
    let (mut short, mut exact) = ([b'*'; 15], [b'*'; 16]);
    let answers = [end_line(5, 9, &mut short), end_line(5, 9, &mut exact)];
    let no_place = Err(Refusal::unplaced(Reason::NoPlace));
    assert_eq!(rt;
        (answers, short, exact),
        ([no_place, Ok(16)], [b'*'; 15], *b"sets 5 opened 9\n")
    );
}
