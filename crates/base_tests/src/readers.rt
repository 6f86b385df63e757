//! A reader of tokens.

use grammar::Reader;
use std::test::Fail;
use vec_base::Refusal;

#[test]
fn tokens_are_passed_where_they_fit(rt: HostRuntime) -> Result<(), Fail> {
    let text = b"  Colour [ 007 ] Float";
    let mut reader = Reader::new(rt.alloc(), text, 1);
    let Ok(name) = reader.name() else {
        return Err(Fail::from("no name"));
    };
    assert_eq!(rt; name.as_text(), "colour");
    assert_eq!(rt; reader.word(b"INT8").is_err(), true);
    assert_eq!(rt; reader.mark(b"[").is_ok(), true);
    let Ok(number) = reader.number() else {
        return Err(Fail::from("no number"));
    };
    assert_eq!(rt; number, 7);
    assert_eq!(rt; reader.refusal(text.len()), Refusal::Syntax(15));
    assert_eq!(rt; reader.mark(b"]").is_ok(), true);
    assert_eq!(rt; reader.at_word(b"FLOAT"), true);
    assert_eq!(rt; reader.refusal(text.len()), Refusal::Unsupported(23));
    assert_eq!(rt; reader.word(b"fLoAt").is_ok(), true);
    assert_eq!(rt; reader.is_done(), true);
    assert_eq!(rt; reader.refusal(text.len()), Refusal::Syntax(22));
    Ok(())
}

#[test]
fn literals_and_parameters_are_read(rt: HostRuntime) -> Result<(), Fail> {
    let text = b"? 'a''b' ?7 x'0aFF' ?12345678901234567890123 -9223372036854775808 +5 'c' )";
    let mut reader = Reader::with_parameters(rt.alloc(), text);
    assert_eq!(rt; reader.at_parameter(), true);
    assert_eq!(rt; reader.parameter().ok(), Some(1));
    let Ok(read) = reader.text() else {
        return Err(Fail::from("no text"));
    };
    assert_eq!(rt; read.as_text(), "a'b");
    let Ok((place, _)) = Reader::with_parameters(rt.alloc(), b"  'x'").placed_text() else {
        return Err(Fail::from("no text"));
    };
    assert_eq!(rt; place, 2);
    assert_eq!(rt; reader.parameter().ok(), Some(7));
    let Ok(bytes) = reader.blob() else {
        return Err(Fail::from("no blob"));
    };
    assert_eq!(rt; bytes.as_slice(), [10, 255].as_slice());
    assert_eq!(rt; reader.parameter().is_err(), true);
    assert_eq!(rt; reader.refusal(text.len()), Refusal::Syntax(20));
    Ok(())
}

#[test]
fn numbers_with_signs_and_places_are_read(rt: HostRuntime) -> Result<(), Fail> {
    let text = b"-9223372036854775808 +5 6 - 9223372036854775809 'c''d' ) ?998 ? ?";
    let mut reader = Reader::with_parameters(rt.alloc(), text);
    assert_eq!(rt; reader.at_signed_number(), true);
    assert_eq!(rt; reader.signed_number().ok(), Some(i64::MIN));
    assert_eq!(rt; reader.signed_number().ok(), Some(5));
    assert_eq!(rt; reader.at_number(), true);
    assert_eq!(rt; reader.signed_number().ok(), Some(6));
    assert_eq!(rt; reader.signed_number().is_err(), true);
    let mut rest = Reader::with_parameters(rt.alloc(), &text[47..]);
    assert_eq!(rt; rest.at_text(), true);
    let Ok((place, quoted)) = rest.quoted() else {
        return Err(Fail::from("no text"));
    };
    assert_eq!(rt; place, 1);
    assert_eq!(rt; quoted.spelling(), b"c''d".as_slice());
    assert_eq!(rt; rest.placed_mark(b")").ok(), Some(8));
    assert_eq!(rt; rest.parameter().ok(), Some(998));
    assert_eq!(rt; rest.parameter().ok(), Some(999));
    assert_eq!(rt; rest.parameter().is_err(), true);
    assert_eq!(rt; rest.at_blob(), false);
    Ok(())
}
