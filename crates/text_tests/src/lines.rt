//! The kept lines of a text and their words, and the longest text.

use psplib_lex::{LexFault, MOST_BYTES, Words, lex};
use std::test::Fail;

/// A kept line: its number and its words.
type Row<'a> = (u32, &'a [&'a [u8]]);

fn are_lines(words: &Words<'_>, rows: &[Row]) -> bool {
    if words.lines() != rows.len() {
        return false;
    }
    for (line, (number, row)) in rows.iter().enumerate() {
        if words.line_number(line) != *number || words.words_of(line) != row.len() {
            return false;
        }
        for (place, word) in row.iter().enumerate() {
            if words.word(line, place) != *word {
                return false;
            }
        }
    }
    true
}

/// Texts with their kept lines.
const TEXTS: &[(&[u8], &[Row])] = &[
    (b"", &[]),
    (b"\n", &[]),
    (b" \t\r\x0B\x0C", &[]),
    (b"* *", &[]),
    (b"- -", &[]),
    (b"*-", &[(1, &[b"*-"])]),
    (b"* -", &[(1, &[b"*", b"-"])]),
    (b"\x1A", &[]),
    (b"\x1A\x1A", &[(1, &[b"\x1A"])]),
    (b"a\n\x1A", &[(1, &[b"a"])]),
    (b"a\x1A", &[(1, &[b"a"])]),
    (b"\x1A\n", &[(1, &[b"\x1A"])]),
    (b"a b\r\nc\r\n", &[(1, &[b"a", b"b"]), (2, &[b"c"])]),
    (b"a\rb", &[(1, &[b"a", b"b"])]),
    (b"\x00 \x00\x00", &[(1, &[b"\x00", b"\x00\x00"])]),
    (b"\n\n a\n***\n\nb", &[(3, &[b"a"]), (6, &[b"b"])]),
    (
        b"****\r\njobs : 2\r\n----\r\n1 1 3 2\r\n  3 4\r\n\x1A",
        &[
            (2, &[b"jobs", b":", b"2"]),
            (4, &[b"1", b"1", b"3", b"2"]),
            (5, &[b"3", b"4"]),
        ],
    ),
];

#[test]
fn lines_and_words(rt: HostRuntime) -> Result<(), Fail> {
    for (text, rows) in TEXTS {
        let words = lex(rt.alloc(), text)?;
        assert!(rt; are_lines(&words, rows), "{text:?}");
    }
    Ok(())
}

#[test]
fn longest_text(rt: HostRuntime) -> Result<(), Fail> {
    let mut text = vec![in rt.alloc(); b' '; MOST_BYTES]?;
    assert_eq!(rt; lex(rt.alloc(), &text)?.lines(), 0);
    text.push(b' ')?;
    assert!(rt; matches!(lex(rt.alloc(), &text), Err(LexFault::TextTooLong)));
    Ok(())
}
