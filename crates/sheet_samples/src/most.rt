// Texts of the most bytes, and sheets of the most charges.
use marks::{Reason, Refusal, Width};
use sheets::{read_sheet, write_sheet};
use std::alloc::Global;
use std::test::Fail;

// What reading so many charges without marks, with an empty line before and after each, into so many bytes that held 7 answers, and whether then the first `packed` of them hold 0 and the others 7.
fn read_without_marks(
    heap: Global,
    charges: usize,
    room: usize,
    packed: usize,
) -> Result<(Result<usize, Refusal>, bool), Fail> {
    let text = b"\n0\n\n".repeat(heap, charges)?;
    let mut memory = vec![in heap; 7; room]?;
    let answer = read_sheet(text.as_slice(), Width::new(1)?, memory.as_mut_slice());
    let mut held = memory.iter().enumerate();
    let as_due = held.all(|(at, byte)| *byte == if at < packed { 0 } else { 7 });
    Ok((answer, as_due))
}

// Charge 65,536 is in line 196,607, and charge 65,537 three lines further on.
#[test]
fn at_most_65536_charges(rt: HostRuntime) -> Result<(), Fail> {
    let no_place = Refusal::at_line(Reason::NoPlace, 196_607, 2);
    let too_many = Refusal::at_line(Reason::TooMany, 196_610, 2);
    for (charges, room, packed, answer) in [
        (65_536, 262_144, 262_144, Ok(65_536)),
        (65_537, 262_144, 262_144, Err(too_many)),
        (65_537, 262_148, 262_144, Err(too_many)),
        (65_537, 262_143, 262_140, Err(no_place)),
        (65_536, 262_143, 262_140, Err(no_place)),
    ] {
        assert_eq!(rt;
            read_without_marks(rt.alloc(), charges, room, packed)?,
            (answer, true),
            "{charges}, {room}"
        );
    }
    Ok(())
}

// Texts of one byte over and over: a fault counts only where the text is not too long.
#[test]
fn at_most_1048576_bytes(rt: HostRuntime) -> Result<(), Fail> {
    let long = Refusal::unplaced(Reason::Long);
    for (byte, size, refusal) in [
        (b'x', 1_048_576, Refusal::at_line(Reason::BadByte, 1, 1)),
        (b'x', 1_048_577, long),
        (b'1', 1_048_576, Refusal::at_line(Reason::BadNumber, 1, 1)),
        (b'1', 1_048_577, long),
        (b'\n', 1_048_577, long),
    ] {
        let text = vec![in rt.alloc(); byte; size]?;
        let mut memory = [7; 3];
        let answer = read_sheet(text.as_slice(), Width::new(32)?, &mut memory);
        assert_eq!(rt; (answer, memory), (Err(refusal), [7; 3]), "{byte}, {size}");
    }
    Ok(())
}

// As many empty lines as a sheet can have are a sheet of no charge, and take no memory.
#[test]
fn empty_lines_alone(rt: HostRuntime) -> Result<(), Fail> {
    let text = vec![in rt.alloc(); b'\n'; 1_048_576]?;
    let answer = read_sheet(text.as_slice(), Width::new(32)?, &mut []);
    assert_eq!(rt; answer, Ok(0));
    Ok(())
}

// Lines of 2, 21, 21, 18 and 18 bytes, and 65,531 lines of 16.
#[test]
fn the_longest_sheet(rt: HostRuntime) -> Result<(), Fail> {
    let width = Width::new(10)?;
    let mut sheet = Vec::new(rt.alloc());
    sheet.extend_from_slice(b"0\n1 2 3 4 5 6 7 8 9 10\n1 2 3 4 5 6 7 8 9 10\n")?;
    sheet.extend_from_slice(b"1 2 3 4 5 6 7 8 9\n1 2 3 4 5 6 7 8 9\n")?;
    let lines = b"1 2 3 4 5 6 7 8\n".repeat(rt.alloc(), 65_531)?;
    sheet.extend_from_slice(lines.as_slice())?;
    let mut packed = vec![in rt.alloc(); 7; 262_144]?;
    let read = read_sheet(sheet.as_slice(), width, packed.as_mut_slice());
    let mut text = vec![in rt.alloc(); b'*'; 1_048_576]?;
    let written = write_sheet(packed.as_slice(), width, text.as_mut_slice());
    assert_eq!(rt; (read, written), (Ok(65_536), Ok(1_048_576)));
    assert!(rt; text.as_slice() == sheet.as_slice());
    Ok(())
}

// Lines of 2, 21, 21 and 21 bytes, and 65,532 lines of 16, which is one byte too many; and then one charge more.
#[test]
fn sheets_too_long(rt: HostRuntime) -> Result<(), Fail> {
    let width = Width::new(10)?;
    let mut packed = [255, 0, 0, 0].repeat(rt.alloc(), 65_536)?;
    let longer = [0, 0, 0, 0, 255, 3, 0, 0, 255, 3, 0, 0, 255, 3, 0, 0];
    for (byte, new) in packed.iter_mut().zip(longer) {
        *byte = new;
    }
    let mut text = vec![in rt.alloc(); b'*'; 1_048_576]?;
    let long = write_sheet(packed.as_slice(), width, text.as_mut_slice());
    packed.extend_from_slice(&[0; 4])?;
    let too_many = write_sheet(packed.as_slice(), width, text.as_mut_slice());
    let due = [Reason::Long, Reason::TooMany].map(|reason| Err(Refusal::unplaced(reason)));
    assert_eq!(rt; [long, too_many], due);
    assert!(rt; text.iter().all(|byte| *byte == b'*'));
    Ok(())
}
