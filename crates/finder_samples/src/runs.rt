// Finders: slots, looking, rewinding, the end of a list, and transcripts. Whole lists are with the worked answers.
use finder::{Finder, Move, Step, Told, transcript};
use found::{RECORD_BYTES, Record};
use limits::{Limit, Size};
use marks::{MarkSet, Reason, Refusal, Support, Width};
use std::test::Fail;
use tables::{Packed, Table};
use worked::sample;

// A finder over a table, of sets of any size, fresh from begin.
fn begin(table: Packed<'_>, support: Support) -> Finder<Packed<'_>, Size> {
    Finder::begin(table, Size::new(32), support)
}

// What next answers, and the record in its slot, which holds zeros before.
fn next<T: Table, W: Limit>(finder: &mut Finder<T, W>) -> Result<(Step, Record), Refusal> {
    let mut slot = [0; RECORD_BYTES];
    let step = finder.next(&mut slot)?;
    Ok((step, Record::from_bytes(&slot)))
}

// The record that look writes.
fn look<T: Table, W: Limit>(finder: &Finder<T, W>) -> Result<Record, Refusal> {
    let mut slot = [0; RECORD_BYTES];
    finder.look(&mut slot)?;
    Ok(Record::from_bytes(&slot))
}

fn record(bits: u32, support: u32, ordinal: u64, opened: u64) -> Record {
    Record {
        set: MarkSet::from_bits(bits),
        support,
        ordinal,
        opened,
    }
}

fn found(bits: u32, support: u32, ordinal: u64, opened: u64) -> (Step, Record) {
    (Step::Found, record(bits, support, ordinal, opened))
}

fn end(ordinal: u64, opened: u64) -> (Step, Record) {
    (Step::End { ordinal, opened }, record(0, 0, 0, 0))
}

#[test]
fn a_list_and_its_end(rt: HostRuntime) {
    let mut finder = begin(sample(), Support::new(2).unwrap());
    for due in [
        found(11, 2, 1, 3),
        found(3, 3, 2, 4),
        found(2, 4, 3, 6),
        found(4, 2, 4, 8),
        found(0, 5, 5, 9),
        end(5, 9),
        end(5, 9),
    ] {
        assert_eq!(rt; next(&mut finder), Ok(due));
    }
    assert_eq!(rt; look(&finder), Ok(record(0, 5, 5, 9)));
}

// What look tells at a beginning, the first two sets, and what look tells then.
type Start = (
    Result<Record, Refusal>,
    (Step, Record),
    (Step, Record),
    Result<Record, Refusal>,
);

fn start<T: Table, W: Limit>(finder: &mut Finder<T, W>) -> Result<Start, Refusal> {
    let nothing = look(finder);
    let (first, second) = (next(finder)?, next(finder)?);
    Ok((nothing, first, second, look(finder)))
}

#[test]
fn rewound_in_mid_list(rt: HostRuntime) {
    let mut finder = begin(sample(), Support::new(2).unwrap());
    let before = start(&mut finder);
    finder.rewind();
    let after = start(&mut finder);
    let due = (
        Err(Refusal::unplaced(Reason::NothingYet)),
        found(11, 2, 1, 3),
        found(3, 3, 2, 4),
        Ok(record(3, 3, 2, 4)),
    );
    assert_eq!(rt; [before, after], [Ok(due); 2]);
}

#[test]
fn an_empty_list(rt: HostRuntime) {
    let mut finder = begin(sample(), Support::new(6).unwrap());
    let ends = [next(&mut finder), next(&mut finder), next(&mut finder)];
    assert_eq!(rt; ends, [Ok(end(0, 1)); 3]);
    assert_eq!(rt; look(&finder), Err(Refusal::unplaced(Reason::NothingYet)));
}

// At least five charges hold the empty set alone, so before it nothing came yet, and after it the list is at its end.
#[test]
fn slots_too_short(rt: HostRuntime) {
    let mut finder = begin(sample(), Support::new(5).unwrap());
    let mut short = [77; 23];
    for due in [found(0, 5, 1, 1), end(1, 1)] {
        let answers = (finder.next(&mut short), finder.look(&mut short));
        let short_slot = Refusal::unplaced(Reason::ShortSlot);
        assert_eq!(rt;
            (answers, next(&mut finder)),
            ((Err(short_slot), Err(short_slot)), Ok(due))
        );
    }
    assert_eq!(rt; short, [77; 23]);
}

#[test]
fn a_slot_with_nothing_to_look_at(rt: HostRuntime) {
    let mut slot = [77; RECORD_BYTES];
    let answer = begin(sample(), Support::new(2).unwrap()).look(&mut slot);
    let nothing_yet = Err(Refusal::unplaced(Reason::NothingYet));
    assert_eq!(rt; (answer, slot), (nothing_yet, [77; RECORD_BYTES]));
}

// What the first three calls of next tell of a table of two charges.
fn three(bytes: &[u8; 8], width: u64) -> Result<[(Step, Record); 3], Refusal> {
    let table = Packed::new(bytes, Width::new(width)?)?;
    let mut finder = begin(table, Support::new(1)?);
    Ok([next(&mut finder)?, next(&mut finder)?, next(&mut finder)?])
}

// The charge with mark 1 and the one with none, at width 1; the charge with all marks and the one with mark 32 alone, at width 32.
#[test]
fn least_and_greatest_widths(rt: HostRuntime) {
    let told = [
        three(&[1, 0, 0, 0, 0, 0, 0, 0], 1),
        three(&[255, 255, 255, 255, 0, 0, 0, 128], 32),
    ];
    assert_eq!(rt;
        told,
        [
            Ok([found(1, 1, 1, 2), found(0, 2, 2, 3), end(2, 3)]),
            Ok([found(u32::MAX, 1, 1, 2), found(1 << 31, 2, 2, 3), end(2, 3)]),
        ]
    );
}

#[test]
fn a_transcript(rt: HostRuntime) -> Result<(), Fail> {
    let moves = [
        Move::Next { slot: 24 },
        Move::Rewind,
        Move::Look { slot: 2 },
    ];
    let told = transcript(
        rt.alloc(),
        &sample(),
        &Size::new(5),
        Support::new(2)?,
        &moves,
    )?;
    let due = [
        Told::Next {
            answer: Ok(Step::Found),
            slot: vec![in rt.alloc();
                11, 0, 0, 0, 2, 0, 0, 0, 1, 0, 0, 0, 0, 0, 0, 0, 3, 0, 0, 0, 0, 0, 0, 0,
            ]?,
        },
        Told::Rewind,
        Told::Look {
            answer: Err(Refusal::unplaced(Reason::ShortSlot)),
            slot: vec![in rt.alloc(); 0, 0]?,
        },
    ];
    assert_eq!(rt; told.as_slice(), due.as_slice());
    Ok(())
}
