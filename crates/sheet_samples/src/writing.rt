// Sheets that are written.
use marks::{Reason, Refusal, Width};
use sheets::{read_sheet, write_sheet};
use std::test::Fail;

// Whether a sheet stands at the front of a text, and past it nothing was written.
fn shows(text: &[u8], sheet: &str) -> bool {
    text.strip_prefix(sheet.as_bytes())
        .is_some_and(|rest| rest.iter().all(|byte| *byte == b'*'))
}

#[test]
fn written_sheets_are_read_back(rt: HostRuntime) -> Result<(), Fail> {
    let width = Width::new(32)?;
    for (bytes, sheet) in [
        ([0; 8], "0\n0\n"),
        ([11, 0, 0, 0, 3, 0, 0, 0], "1 2 4\n1 2\n"),
        ([0, 0, 0, 0, 20, 0, 0, 0], "0\n3 5\n"),
        ([1, 0, 0, 128, 0, 3, 0, 0], "1 32\n9 10\n"),
        (
            [127, 0, 0, 0, 0, 0, 0, 254],
            "1 2 3 4 5 6 7\n26 27 28 29 30 31 32\n",
        ),
    ] {
        let mut text = [b'*'; 35];
        let size = write_sheet(&bytes, width, &mut text)?;
        assert!(rt; shows(&text, sheet) && size == sheet.len(), "{sheet:?}");
        let mut memory = [7; 8];
        let written = text.get(..size).unwrap_or_default();
        let count = read_sheet(written, width, &mut memory)?;
        assert_eq!(rt; (count, memory), (2, bytes), "{sheet:?}");
    }
    Ok(())
}

#[test]
fn a_sheet_that_fills_its_text(rt: HostRuntime) -> Result<(), Fail> {
    let mut text = [b'*'; 2];
    let answer = write_sheet(&[0; 4], Width::new(5)?, &mut text);
    assert_eq!(rt; (answer, text), (Ok(2), *b"0\n"));
    Ok(())
}

#[test]
fn refused_bytes(rt: HostRuntime) -> Result<(), Fail> {
    let ragged = Refusal::unplaced(Reason::Ragged);
    let no_place = Refusal::unplaced(Reason::NoPlace);
    for (bytes, room, refusal) in [
        ([11u8, 0, 0].as_slice(), 9, ragged),
        ([32, 0, 0, 0, 0].as_slice(), 0, ragged),
        ([32, 0, 0, 0].as_slice(), 0, Refusal::at(Reason::Stray, 1)),
        (
            [11, 0, 0, 0, 3, 0, 0, 1].as_slice(),
            9,
            Refusal::at(Reason::Stray, 2),
        ),
        ([0; 4].as_slice(), 1, no_place),
        ([11, 0, 0, 0, 3, 0, 0, 0].as_slice(), 9, no_place),
    ] {
        let mut text = vec![in rt.alloc(); b'*'; room]?;
        let answer = write_sheet(bytes, Width::new(5)?, text.as_mut_slice());
        assert_eq!(rt; answer, Err(refusal), "{bytes:?}");
        assert!(rt; shows(text.as_slice(), ""), "{bytes:?}");
    }
    Ok(())
}
