// Found records at their edges: their bytes, slots and reading them back.
use found::{RECORD_BYTES, Record, RecordBytes, read_back};
use marks::{MarkSet, Reason, Refusal};

// A record of its set alone.
fn of(bits: u32) -> Record {
    Record {
        set: MarkSet::from_bits(bits),
        support: 0,
        ordinal: 0,
        opened: 0,
    }
}

// The record whose bytes count from 1.
fn counted() -> Record {
    Record {
        set: MarkSet::from_bits(0x0403_0201),
        support: 0x0807_0605,
        ordinal: 0x100f_0e0d_0c0b_0a09,
        opened: 0x1817_1615_1413_1211,
    }
}

const COUNTED: RecordBytes = [
    1, 2, 3, 4, 5, 6, 7, 8, 9, 10, 11, 12, 13, 14, 15, 16, 17, 18, 19, 20, 21, 22, 23, 24,
];

// The record of the greatest numbers.
fn greatest() -> Record {
    Record {
        set: MarkSet::from_bits(u32::MAX),
        support: u32::MAX,
        ordinal: u64::MAX,
        opened: u64::MAX,
    }
}

#[test]
fn bytes_of_a_record(rt: HostRuntime) {
    let bytes = [of(0), counted(), greatest()].map(|record| record.to_bytes());
    assert_eq!(rt; bytes, [[0; RECORD_BYTES], COUNTED, [255; RECORD_BYTES]]);
}

#[test]
fn record_of_bytes(rt: HostRuntime) {
    assert_eq!(rt; Record::from_bytes(&COUNTED), counted());
}

#[test]
fn slots_too_short(rt: HostRuntime) {
    let mut short = [77; 23];
    let answers = [counted().write(&mut []), counted().write(&mut short)];
    let short_slot = Err(Refusal::unplaced(Reason::ShortSlot));
    assert_eq!(rt; (answers, short), ([short_slot; 2], [77; 23]));
}

#[test]
fn slots(rt: HostRuntime) {
    let (mut exact, mut longer) = ([77; 24], [77; 26]);
    let answers = [counted().write(&mut exact), counted().write(&mut longer)];
    assert_eq!(rt; (answers, exact), ([Ok(()); 2], COUNTED));
    assert_eq!(rt;
        longer,
        [
            1, 2, 3, 4, 5, 6, 7, 8, 9, 10, 11, 12, 13, 14, 15, 16, 17, 18, 19, 20, 21, 22, 23, 24,
            77, 77,
        ]
    );
}

// The refusal of two records that are read back, each with one byte in its set, the lowest, if they are refused.
fn two(first: u8, second: u8) -> Option<Refusal> {
    let mut bytes = [0; 48];
    bytes[0] = first;
    bytes[24] = second;
    let mut memory = [of(0); 2];
    read_back(&bytes, &mut memory).err()
}

#[test]
fn records_in_order(rt: HostRuntime) {
    let refusals = [two(11, 3), two(1, 0), two(1, 254)];
    assert_eq!(rt; refusals, [None; 3]);
}

#[test]
fn records_out_of_order(rt: HostRuntime) {
    let refusals = [two(3, 11), two(3, 3), two(0, 0), two(0, 1)];
    let second = Some(Refusal::at(Reason::OutOfOrder, 2));
    assert_eq!(rt; refusals, [second; 4]);
}

#[test]
fn records_come_back(rt: HostRuntime) {
    let (mut longer, mut exact) = ([of(9); 2], [of(9)]);
    let counts = [
        read_back(&COUNTED, &mut longer),
        read_back(&[255; RECORD_BYTES], &mut exact),
        read_back(&[], &mut exact),
    ];
    assert_eq!(rt;
        (counts, longer, exact),
        ([Ok(1), Ok(1), Ok(0)], [counted(), of(9)], [greatest()])
    );
}

#[test]
fn refused_records(rt: HostRuntime) {
    let mut memory = [of(9); 1];
    let answers = [
        read_back(&[0; 23], &mut memory),
        read_back(&[0; 49], &mut memory),
        read_back(&[0; 48], &mut memory),
    ];
    let ragged = Err(Refusal::unplaced(Reason::Ragged));
    let no_place = Err(Refusal::unplaced(Reason::NoPlace));
    assert_eq!(rt; (answers, memory), ([ragged, ragged, no_place], [of(9)]));
}

#[test]
fn unordered_records_are_written(rt: HostRuntime) {
    let mut memory = [of(9); 3];
    let count = read_back(&[1; 48], &mut memory);
    let supports = memory.map(|record| record.support);
    let unordered = Err(Refusal::at(Reason::OutOfOrder, 2));
    assert_eq!(rt;
        (count, supports, memory[2]),
        (unordered, [0x0101_0101, 0x0101_0101, 0], of(9))
    );
}
