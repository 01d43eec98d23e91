// Sheets that are accepted, and the memory that they take.
use marks::{Reason, Refusal, Width};
use sheets::read_sheet;
use std::test::Fail;

#[test]
fn accepted_sheets(rt: HostRuntime) -> Result<(), Fail> {
    for (text, count, packed) in [
        ("", 0, [7; 12]),
        ("\n", 0, [7; 12]),
        ("\n\n\n\n", 0, [7; 12]),
        ("0\n", 1, [0, 0, 0, 0, 7, 7, 7, 7, 7, 7, 7, 7]),
        ("\n0\n\n\n0\n0\n\n", 3, [0; 12]),
        ("1 2 4\n1 2\n", 2, [11, 0, 0, 0, 3, 0, 0, 0, 7, 7, 7, 7]),
        (
            "10\n\n0\n9 32\n\n",
            3,
            [0, 2, 0, 0, 0, 0, 0, 0, 0, 1, 0, 128],
        ),
        (
            "1 2 3 4 5 6 7 8 9 10 11 12 13 14 15 16 17 18 19 20 21 22 23 24 25 26 27 28 29 30 31 32\n",
            1,
            [255, 255, 255, 255, 7, 7, 7, 7, 7, 7, 7, 7],
        ),
    ] {
        let mut memory = [7; 12];
        let answer = read_sheet(text.as_bytes(), Width::new(32)?, &mut memory);
        assert_eq!(rt; (answer, memory), (Ok(count), packed), "{text:?}");
    }
    Ok(())
}

fn no_place(line: u64, column: u64) -> Result<usize, Refusal> {
    Err(Refusal::at_line(Reason::NoPlace, line, column))
}

// Three charges in so many bytes that held 7: what is answered, and what the bytes then hold.
#[test]
fn room_for_three_charges(rt: HostRuntime) -> Result<(), Fail> {
    let none = [7; 15];
    let one = [11, 0, 0, 0, 7, 7, 7, 7, 7, 7, 7, 7, 7, 7, 7];
    let two = [11, 0, 0, 0, 3, 0, 0, 0, 7, 7, 7, 7, 7, 7, 7];
    let three = [11, 0, 0, 0, 3, 0, 0, 0, 20, 0, 0, 0, 7, 7, 7];
    for (answer, held) in [
        (no_place(1, 6), &none[..0]),
        (no_place(1, 6), &none[..3]),
        (no_place(2, 4), &one[..4]),
        (no_place(2, 4), &one[..7]),
        (no_place(3, 4), &two[..8]),
        (no_place(3, 4), &two[..11]),
        (Ok(3), &three[..12]),
        (Ok(3), &three[..15]),
    ] {
        let mut memory = vec![in rt.alloc(); 7; held.len()]?;
        let text = b"1 2 4\n1 2\n3 5\n";
        assert_eq!(rt;
            read_sheet(text, Width::new(5)?, memory.as_mut_slice()),
            answer
        );
        assert_eq!(rt; memory.as_slice(), held);
    }
    Ok(())
}
