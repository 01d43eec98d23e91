// Faulty sheets: which fault is named, where, and what is packed.
use marks::{Reason, Refusal, Width};
use sheets::read_sheet;
use std::test::Fail;

// What reading a text at width 5 answers, and what twelve bytes of memory that held 7 then hold.
fn read(text: &str) -> Result<(Result<usize, Refusal>, [u8; 12]), Fail> {
    let mut memory = [7; 12];
    let answer = read_sheet(text.as_bytes(), Width::new(5)?, &mut memory);
    Ok((answer, memory))
}

// What they hold after a fault in a line, where the lines before it are `1`, `2` and `3`.
fn packed_before(line: u64) -> [u8; 12] {
    match line {
        1 => [7; 12],
        2 => [1, 0, 0, 0, 7, 7, 7, 7, 7, 7, 7, 7],
        3 => [1, 0, 0, 0, 2, 0, 0, 0, 7, 7, 7, 7],
        _ => [1, 0, 0, 0, 2, 0, 0, 0, 4, 0, 0, 0],
    }
}

// What reading then has to give, for a fault at a place.
fn refused(reason: Reason, line: u64, column: u64) -> (Result<usize, Refusal>, [u8; 12]) {
    (
        Err(Refusal::at_line(reason, line, column)),
        packed_before(line),
    )
}

// Each fault in the first line, in one between and in the last. A line end can be wanting only in the last, so there the sheets have one line, two and three.
#[test]
fn one_fault(rt: HostRuntime) -> Result<(), Fail> {
    for (text, reason, line, column) in [
        ("x\n2\n3\n", Reason::BadByte, 1, 1),
        ("1\n2 -3\n3\n", Reason::BadByte, 2, 3),
        ("1\n2\n3\r\n", Reason::BadByte, 3, 2),
        ("6\n2\n3\n", Reason::BadNumber, 1, 1),
        ("1\n02\n3\n", Reason::BadNumber, 2, 1),
        ("1\n2\n3 10\n", Reason::BadNumber, 3, 3),
        ("2 1\n2\n3\n", Reason::BadRise, 1, 3),
        ("1\n2 4 4\n3\n", Reason::BadRise, 2, 5),
        ("1\n2\n5 3\n", Reason::BadRise, 3, 3),
        (" 1\n2\n3\n", Reason::BadBlank, 1, 1),
        ("1\n2  3\n3\n", Reason::BadBlank, 2, 3),
        ("1\n2\n3 \n", Reason::BadBlank, 3, 2),
        ("1", Reason::NoLineEnd, 1, 2),
        ("1\n2 3", Reason::NoLineEnd, 2, 4),
        ("1\n2\n3 ", Reason::NoLineEnd, 3, 3),
    ] {
        assert_eq!(rt; read(text)?, refused(reason, line, column), "{text:?}");
    }
    Ok(())
}

// Of several faults the leftmost counts, and of two at one place the first by its number.
#[test]
fn several_faults(rt: HostRuntime) -> Result<(), Fail> {
    for (text, reason, line, column) in [
        ("9x", Reason::BadNumber, 1, 1),
        ("1x", Reason::BadByte, 1, 2),
        ("x9\n", Reason::BadByte, 1, 1),
        ("3 2x\n", Reason::BadRise, 1, 3),
        ("3 2 \n", Reason::BadRise, 1, 3),
        ("3 0\n", Reason::BadNumber, 1, 3),
        ("3 0", Reason::BadNumber, 1, 3),
        ("0 ", Reason::BadNumber, 1, 1),
        ("0 \n", Reason::BadNumber, 1, 1),
        ("0x\n", Reason::BadNumber, 1, 1),
        ("0 1\n", Reason::BadNumber, 1, 1),
        ("01\n", Reason::BadNumber, 1, 1),
        ("00\n", Reason::BadNumber, 1, 1),
        ("00", Reason::BadNumber, 1, 1),
        ("0", Reason::NoLineEnd, 1, 2),
        (" 0\n", Reason::BadBlank, 1, 1),
        ("0\r\n", Reason::BadNumber, 1, 1),
        ("1  0\n", Reason::BadBlank, 1, 3),
        ("0  1\n", Reason::BadNumber, 1, 1),
        (" x\n", Reason::BadBlank, 1, 1),
        ("1 x\n", Reason::BadByte, 1, 3),
        ("1 ", Reason::NoLineEnd, 1, 3),
        ("1  ", Reason::BadBlank, 1, 3),
        ("1\n2\n3 6", Reason::BadNumber, 3, 3),
        ("1\n2\n3 3", Reason::BadRise, 3, 3),
        ("1\n4 4\nx\n", Reason::BadRise, 2, 3),
        ("1\n2\n3\n0\n", Reason::NoPlace, 4, 2),
        ("1\n2\n3\n4\nx", Reason::NoPlace, 4, 2),
        ("1\n2\n3\n6\n", Reason::BadNumber, 4, 1),
        ("1\n2\n3\n4 \n", Reason::BadBlank, 4, 2),
        ("1\n2\n3\n00\n", Reason::BadNumber, 4, 1),
        ("1\n2\n3\n0", Reason::NoLineEnd, 4, 2),
        ("1\n2\n3\n4", Reason::NoLineEnd, 4, 2),
    ] {
        assert_eq!(rt; read(text)?, refused(reason, line, column), "{text:?}");
    }
    Ok(())
}

// Bytes that stand next to those of a sheet, and numbers of any length: some of them are 2 in 32, 64 or 128 bits.
#[test]
fn bytes_and_numbers(rt: HostRuntime) -> Result<(), Fail> {
    for (text, reason, line, column) in [
        ("\t\n", Reason::BadByte, 1, 1),
        ("1\u{b}\n", Reason::BadByte, 1, 2),
        ("1\u{1f}2\n", Reason::BadByte, 1, 2),
        ("1!2\n", Reason::BadByte, 1, 2),
        ("1/\n", Reason::BadByte, 1, 2),
        ("1:\n", Reason::BadByte, 1, 2),
        ("\u{0}\n", Reason::BadByte, 1, 1),
        ("1 \u{e9}\n", Reason::BadByte, 1, 3),
        ("\r\n", Reason::BadByte, 1, 1),
        ("000000000000000000001\n", Reason::BadNumber, 1, 1),
        ("1 4294967298\n", Reason::BadNumber, 1, 3),
        ("1 18446744073709551618\n", Reason::BadNumber, 1, 3),
        (
            "1\n340282366920938463463374607431768211458\n",
            Reason::BadNumber,
            2,
            1,
        ),
        (
            "11111111111111111111111111111111111111111x",
            Reason::BadNumber,
            1,
            1,
        ),
    ] {
        assert_eq!(rt; read(text)?, refused(reason, line, column), "{text:?}");
    }
    Ok(())
}

// Empty lines count as lines where a fault is placed, but they are no charges, and take no memory.
#[test]
fn faults_behind_empty_lines(rt: HostRuntime) -> Result<(), Fail> {
    let three = [1, 0, 0, 0, 2, 0, 0, 0, 4, 0, 0, 0];
    for (text, packed, reason, line, column) in [
        ("\n\n0", [7; 12], Reason::NoLineEnd, 3, 2),
        ("\n\n01\n", [7; 12], Reason::BadNumber, 3, 1),
        ("\n\n \n", [7; 12], Reason::BadBlank, 3, 1),
        ("\n1\n\n2\n3\n\n\n0\n", three, Reason::NoPlace, 8, 2),
        ("1\n2\n3\n\n\nx", three, Reason::BadByte, 6, 1),
    ] {
        let fault = Err(Refusal::at_line(reason, line, column));
        assert_eq!(rt; read(text)?, (fault, packed), "{text:?}");
    }
    Ok(())
}
