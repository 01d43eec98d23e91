// What is printed for an order line and a sheet, at their edges.
use listed::{INPUT_LIMIT, answer};
use std::alloc::{AllocError, Global};
use std::test::Fail;

// Whether this text is printed for an input.
fn prints(heap: Global, input: &[u8], text: &str) -> Result<bool, AllocError> {
    Ok(answer(heap, input)?.as_slice() == text.as_bytes())
}

#[test]
fn lists_and_faults(rt: HostRuntime) -> Result<(), Fail> {
    for (input, text) in [
        (
            "5 2 5 1 5\n1 2 4\n1 2\n2 3\n1 2 4\n3 5\n",
            "1 2 4 (2)\n1 2 (3)\n2 (4)\n3 (2)\n(5)\nsets 5 opened 9\n",
        ),
        (
            "5 2 5 2 3\n1 2 4\n1 2\n2 3\n1 2 4\n3 5\n",
            "1 2 (2)\n2 (3)\nsets 2 opened 3\n",
        ),
        ("5 6 5 1 5\n", "sets 0 opened 1\n"),
        (
            "5 2 5 1 5\n\n1 2 4\n1 2\n\n\n2 3\n1 2 4\n3 5\n\n",
            "1 2 4 (2)\n1 2 (3)\n2 (4)\n3 (2)\n(5)\nsets 5 opened 9\n",
        ),
        (
            "5 2 5 2 3\n\n1 2 4\n\n1 2\n2 3\n\n1 2 4\n3 5\n",
            "1 2 (2)\n2 (3)\nsets 2 opened 3\n",
        ),
        ("5 1 5 1 5\n\n0\n\n0\n", "(2)\nsets 1 opened 1\n"),
        ("", "fault 1 line 0 column 1\n"),
        ("5 0 5 1 5\n1 1", "fault 2 line 0 column 3\n"),
        ("5 2 5 1 5\n1 1\n", "fault 5 line 1 column 3\n"),
        ("5 2 5 1 5\n1", "fault 7 line 1 column 2\n"),
        ("5 2 5 1 5\n\n\n1 1\n", "fault 5 line 3 column 3\n"),
        ("5 2 5 1 5\n\n0", "fault 7 line 2 column 2\n"),
    ] {
        assert!(rt; prints(rt.alloc(), input.as_bytes(), text)?, "{input:?}");
    }
    Ok(())
}

// An order line and behind it so many charges without marks.
fn without_marks(heap: Global, count: usize) -> Result<Vec<u8>, AllocError> {
    let mut input = Vec::new(heap);
    input.extend_from_slice(b"5 2 5 1 5\n")?;
    input.extend_from_slice(b"0\n".repeat(heap, count)?.as_slice())?;
    Ok(input)
}

#[test]
fn most_charges(rt: HostRuntime) -> Result<(), Fail> {
    for (count, text) in [
        (4_096, "(5)\nsets 1 opened 1\n"),
        (4_097, "fault 9 line 4097 column 2\n"),
        (INPUT_LIMIT, "fault 10 line 0 column 0\n"),
    ] {
        let input = without_marks(rt.alloc(), count)?;
        assert!(rt; prints(rt.alloc(), input.as_slice(), text)?, "{count}");
    }
    Ok(())
}
