//! Positions, offsets and edits of documents.

use std::test::Fail;
use wgsl_server_text::{Document, EditError, Position, PositionEncoding, Range};

/// Six lines: a CR, a CRLF, an LF and two CRs end them, and there are characters of one to four
/// bytes.
const TEXT: &str = "a\u{e9}\r\u{20ac}b\r\n\u{10300}c\nd\r\re";

fn at(line: usize, character: usize) -> Position {
    Position { line, character }
}

fn between(start: Position, end: Position) -> Range {
    Range { start, end }
}

#[test]
fn positions_and_offsets(rt: HostRuntime) -> Result<(), Fail> {
    let alloc = rt.alloc();
    let document = Document::new(alloc, String::from_str(alloc, TEXT)?)?;
    assert!(rt; document.text() == TEXT);

    // The offset, the line, and the characters in UTF-8 and UTF-16.
    let rows = [
        (0, 0, 0, 0),
        (1, 0, 1, 1),
        (3, 0, 3, 2),
        (4, 1, 0, 0),
        (7, 1, 3, 1),
        (8, 1, 4, 2),
        (10, 2, 0, 0),
        (14, 2, 4, 2),
        (15, 2, 5, 3),
        (16, 3, 0, 0),
        (17, 3, 1, 1),
        (18, 4, 0, 0),
        (19, 5, 0, 0),
        (20, 5, 1, 1),
    ];
    for (offset, line, bytes, units) in rows {
        let utf8 = at(line, bytes);
        let utf16 = at(line, units);
        assert_eq!(rt; document.position_at(PositionEncoding::Utf8, offset), utf8);
        assert_eq!(rt;
            document.position_at(PositionEncoding::Utf16, offset),
            utf16
        );
        assert_eq!(rt;
            document.offset_at(PositionEncoding::Utf8, utf8),
            Some(offset)
        );
        assert_eq!(rt;
            document.offset_at(PositionEncoding::Utf16, utf16),
            Some(offset)
        );
    }
    Ok(())
}

#[test]
fn places_that_a_text_does_not_have(rt: HostRuntime) -> Result<(), Fail> {
    let alloc = rt.alloc();
    let document = Document::new(alloc, String::from_str(alloc, TEXT)?)?;

    // A character after the end of its line is the end.
    assert_eq!(rt;
        document.offset_at(PositionEncoding::Utf8, at(1, 5)),
        Some(8)
    );
    assert_eq!(rt;
        document.offset_at(PositionEncoding::Utf16, at(0, 99)),
        Some(3)
    );

    // Inside of a character, and after the last line.
    assert_eq!(rt; document.offset_at(PositionEncoding::Utf8, at(0, 2)), None);
    assert_eq!(rt; document.offset_at(PositionEncoding::Utf16, at(2, 1)), None);
    assert_eq!(rt; document.offset_at(PositionEncoding::Utf16, at(6, 0)), None);
    Ok(())
}

#[test]
fn ranges(rt: HostRuntime) -> Result<(), Fail> {
    let alloc = rt.alloc();
    let document = Document::new(alloc, String::from_str(alloc, TEXT)?)?;
    let range = between(at(0, 1), at(2, 2));
    assert_eq!(rt; document.range_at(PositionEncoding::Utf16, 1, 14), range);
    assert_eq!(rt;
        document.offsets_of(PositionEncoding::Utf16, range),
        Some((1, 14))
    );
    let turned = between(at(2, 2), at(0, 1));
    assert_eq!(rt; document.offsets_of(PositionEncoding::Utf16, turned), None);
    Ok(())
}

#[test]
fn edits(rt: HostRuntime) -> Result<(), Fail> {
    let alloc = rt.alloc();
    let mut document = Document::new(alloc, String::from_str(alloc, TEXT)?)?;
    let encoding = PositionEncoding::Utf16;

    // Two lines become one and a half.
    document.edit(alloc, encoding, Some(between(at(0, 1), at(2, 2))), "x\ny")?;
    assert!(rt; document.text() == "ax\nyc\nd\r\re");
    assert_eq!(rt; document.position_at(encoding, 4), at(1, 1));

    // Outside of the text nothing changes.
    let outside = document.edit(alloc, encoding, Some(between(at(9, 0), at(9, 0))), "z");
    assert!(rt; matches!(outside, Err(EditError::Outside)));
    assert!(rt; document.text() == "ax\nyc\nd\r\re");

    // A deletion, an insertion at the end, and another text.
    document.edit(alloc, encoding, Some(between(at(1, 0), at(4, 1))), "")?;
    assert!(rt; document.text() == "ax\n");
    document.edit(alloc, encoding, Some(between(at(1, 0), at(1, 0))), "b")?;
    assert!(rt; document.text() == "ax\nb");
    document.edit(alloc, encoding, None, "\r\n")?;
    assert!(rt; document.text() == "\r\n");
    assert_eq!(rt; document.position_at(encoding, 2), at(1, 0));
    Ok(())
}
