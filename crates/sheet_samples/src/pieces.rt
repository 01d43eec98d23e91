// Pieces of a text, and their places.
use sheets::{Piece, Place, Reader};
use std::test::Fail;

// The bytes of a piece, and its place.
fn seen(piece: Piece<'_>) -> (&[u8], Place) {
    match piece {
        Piece::Number { digits, place } => (digits, place),
        Piece::Blank(place) => (b" ", place),
        Piece::LineEnd(place) => (b"\n", place),
    }
}

#[test]
fn pieces_with_their_places(rt: HostRuntime) -> Result<(), Fail> {
    let mut reader = Reader::new(b"12 3\n");
    for (bytes, column, before_line_end) in [
        ("12", 1, false),
        (" ", 3, false),
        ("3", 4, true),
        ("\n", 5, false),
    ] {
        let place = Place { line: 1, column };
        assert_eq!(rt; reader.next()?.map(seen), Some((bytes.as_bytes(), place)));
        assert_eq!(rt; reader.is_before_line_end(), before_line_end);
    }
    assert_eq!(rt; reader.next()?.map(seen), None);
    assert_eq!(rt; reader.place(), Place { line: 2, column: 1 });
    Ok(())
}
