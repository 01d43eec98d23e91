// Order lines at their edges.
use marks::{Charge, Reason, Refusal, Support, Width};
use sheets::{Order, read_order};
use std::test::Fail;

#[test]
fn order_lines(rt: HostRuntime) -> Result<(), Fail> {
    for (text, width, support, size, first, count, sheet) in [
        ("5 2 5 1 5\n", 5, 2, 5, 1, 5, 11),
        ("5 2 5 1 5\nx", 5, 2, 5, 1, 5, 11),
        ("1 1 0 1 0\n\n", 1, 1, 0, 1, 0, 11),
        (
            "32 65536 32 65536 65536\n1\n",
            32,
            65_536,
            32,
            65_536,
            65_536,
            25,
        ),
    ] {
        let order = Order {
            width: Width::new(width)?,
            support: Support::new(support)?,
            size,
            first: Charge::new(first)?,
            count,
            sheet,
        };
        assert_eq!(rt; read_order(text.as_bytes()), Ok(order), "{text:?}");
    }
    Ok(())
}

// A line that is cut could go on, so it is faulty one past its end.
#[test]
fn cut_order_lines(rt: HostRuntime) {
    let line = b"5 2 5 1 5\n";
    for size in 0..line.len() {
        assert_eq!(rt;
            read_order(&line[..size]),
            Err(Refusal::at_line(Reason::Form, 0, size as u64 + 1))
        );
    }
}

#[test]
fn refused_order_lines(rt: HostRuntime) {
    for (text, reason, column) in [
        ("\n", Reason::Form, 1),
        (" 5 2 5 1 5\n", Reason::Form, 1),
        ("-5 2 5 1 5\n", Reason::Form, 1),
        ("5\t2 5 1 5\n", Reason::Form, 2),
        ("5  2 5 1 5\n", Reason::Form, 3),
        ("123456 2 5 1 5\n", Reason::Form, 6),
        ("5 2 5 1 000005\n", Reason::Form, 10),
        ("5 2 5 1 123456\n", Reason::Form, 14),
        ("05 2 5 1 5\n", Reason::Form, 2),
        ("5 2 00 1 5\n", Reason::Form, 6),
        ("5 2 5 1\n", Reason::Form, 8),
        ("5 2 5 1 \n", Reason::Form, 9),
        ("5 2 5 1 5 \n", Reason::Form, 10),
        ("5 2 5 1 5 6\n", Reason::Form, 10),
        ("5 2 5 1 5\r\n", Reason::Form, 10),
        ("33 0 33 0 65537\r\n", Reason::Form, 16),
        ("0 2 5 1 5\n", Reason::Range, 1),
        ("33 2 5 1 5\n", Reason::Range, 1),
        ("5 0 5 1 5\n", Reason::Range, 3),
        ("5 65537 5 1 5\n", Reason::Range, 3),
        ("5 2 33 1 5\n", Reason::Range, 5),
        ("5 2 5 0 5\n", Reason::Range, 7),
        ("5 2 5 65537 5\n", Reason::Range, 7),
        ("5 2 5 1 65537\n", Reason::Range, 9),
        ("5 2 5 1 99999\n", Reason::Range, 9),
        ("5 0 33 1 5\n", Reason::Range, 3),
        ("32 65536 32 0 99999\n", Reason::Range, 13),
        ("33 0 33 0 65537\n", Reason::Range, 1),
    ] {
        assert_eq!(rt;
            read_order(text.as_bytes()),
            Err(Refusal::at_line(reason, 0, column)),
            "{text:?}"
        );
    }
}
