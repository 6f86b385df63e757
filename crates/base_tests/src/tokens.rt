//! The longest token.

use vec_literal::{Lexed, TokenSort, next_token};

/// The token's sort and places, `None` at the end, or the place of a byte at which no token can be read.
type Seen = Result<Option<(TokenSort, usize, usize)>, usize>;

fn seen(text: &[u8]) -> Seen {
    match next_token(text, 0) {
        Lexed::Found(token) => found(token.sort, token.from, token.upto),
        Lexed::End => Ok(None),
        Lexed::Bad(place) => Err(place),
    }
}

fn found(sort: TokenSort, from: usize, upto: usize) -> Seen {
    Ok(Some((sort, from, upto)))
}

#[test]
fn reads_the_longest_token(rt: HostRuntime) {
    let cases: [(&[u8], Seen); 28] = [
        (b"", Ok(None)),
        (b" \t\n\x0C\r", Ok(None)),
        (b" _a1 b", found(TokenSort::Word, 1, 4)),
        (b"x", found(TokenSort::Word, 0, 1)),
        (b"xy'00'", found(TokenSort::Word, 0, 2)),
        (b"007a", found(TokenSort::Number, 0, 3)),
        (b"?", found(TokenSort::Param, 0, 1)),
        (b"?12?", found(TokenSort::Param, 0, 3)),
        (b"''", found(TokenSort::TextLit, 0, 2)),
        (b"'a'", found(TokenSort::TextLit, 0, 3)),
        (b"'a''", found(TokenSort::TextLit, 0, 3)),
        (b"'a''b'", found(TokenSort::TextLit, 0, 6)),
        (b"''''x", found(TokenSort::TextLit, 0, 4)),
        (b"'\xC3\xA9'", found(TokenSort::TextLit, 0, 4)),
        (b"'a''\xFF'", found(TokenSort::TextLit, 0, 3)),
        (b"\n'\xFF'", Err(1)),
        (b"'a", Err(0)),
        (b"x''", found(TokenSort::BlobLit, 0, 3)),
        (b"X'0aF9'", found(TokenSort::BlobLit, 0, 7)),
        (b"x'0a9'", Err(0)),
        (b"x'0g'", Err(0)),
        (b"x'00", Err(0)),
        (b"==", found(TokenSort::Mark, 0, 2)),
        (b"=!", found(TokenSort::Mark, 0, 1)),
        (b"<>=", found(TokenSort::Mark, 0, 2)),
        (b" >=", found(TokenSort::Mark, 1, 3)),
        (b"!", Err(0)),
        (b" \"a\"", Err(1)),
    ];
    for (text, want) in cases {
        assert_eq!(rt; seen(text), want);
    }
}
