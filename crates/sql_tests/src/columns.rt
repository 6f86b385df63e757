//! Texts of columns: the schemas that they declare, and their refusals.

use std::alloc::Global;
use std::test::Fail;
use vec_base::{Refusal, Txt};
use vec0_columns::{read_columns, read_columns_at, write_columns};

/// Texts, and the canonical texts of the schemas that they declare.
const READ: [(&str, &str); 8] = [
    ("a int8[2]", "a int8[2] distance_metric=l2, chunk_size=1024"),
    (
        "A Int8 [ 0002 ] DISTANCE_metric = L1, Chunk_Size = 8",
        "a int8[2] distance_metric=l1, chunk_size=8",
    ),
    (
        "\ta\nbit\x0c[\r8] ,_b INT,c BOOL, d9 text",
        "a bit[8], _b integer, c boolean, d9 text, chunk_size=1024",
    ),
    (
        "p int partition key, q text Partition Key, v bit[8192]",
        "p integer partition key, q text partition key, v bit[8192], chunk_size=1024",
    ),
    (
        "i integer primary key, v int8[8192]",
        "i integer primary key, v int8[8192] distance_metric=l2, chunk_size=1024",
    ),
    (
        "t text primary key, + x int, +y TEXT, +z blob, v bit[8]",
        "t text primary key, +x integer, +y text, +z blob, v bit[8], chunk_size=1024",
    ),
    (
        "replace boolean, key bit[8], int int, chunk_size=4096",
        "replace boolean, key bit[8], int integer, chunk_size=4096",
    ),
    (
        "c0 int8[1], c1 int8[1], c2 int8[1], c3 int8[1], c4 int8[1], c5 int8[1], c6 int8[1], c7 int8[1], c8 int8[1], c9 int8[1], c10 int8[1], c11 int8[1], c12 int8[1], c13 int8[1], c14 int8[1], c15 int8[1]",
        "c0 int8[1] distance_metric=l2, c1 int8[1] distance_metric=l2, c2 int8[1] distance_metric=l2, c3 int8[1] distance_metric=l2, c4 int8[1] distance_metric=l2, c5 int8[1] distance_metric=l2, c6 int8[1] distance_metric=l2, c7 int8[1] distance_metric=l2, c8 int8[1] distance_metric=l2, c9 int8[1] distance_metric=l2, c10 int8[1] distance_metric=l2, c11 int8[1] distance_metric=l2, c12 int8[1] distance_metric=l2, c13 int8[1] distance_metric=l2, c14 int8[1] distance_metric=l2, c15 int8[1] distance_metric=l2, chunk_size=1024",
    ),
];

/// Texts and their refusals.
const REFUSED: [(&str, &str); 72] = [
    ("", "Syntax(0)"),
    (" a ", "Syntax(3)"),
    ("a int8", "Syntax(6)"),
    ("a int8[", "Syntax(7)"),
    ("a int8[2", "Syntax(8)"),
    ("a int8[2] distance_metric", "Syntax(25)"),
    ("a int8[2] distance_metric=", "Syntax(26)"),
    ("a bit[8], i int primary", "Syntax(23)"),
    ("a bit[8], t text partition", "Syntax(26)"),
    ("+", "Syntax(1)"),
    ("+a", "Syntax(2)"),
    ("chunk_size", "Syntax(10)"),
    ("chunk_size=", "Syntax(11)"),
    ("a int8[2] ,", "Syntax(11)"),
    ("a int8[2] b int", "Syntax(10)"),
    ("a int8[2] distance_metric l2", "Syntax(26)"),
    ("a int8[2] distance_metric=l3", "Syntax(26)"),
    ("a int8[-2]", "Syntax(7)"),
    ("a int8[9223372036854775808]", "Syntax(7)"),
    ("a int8[2]\x0b", "Syntax(9)"),
    ("a int primary, b bit[8]", "Syntax(13)"),
    ("a integer partition primary key", "Syntax(20)"),
    ("a boolean primary key", "Syntax(10)"),
    ("a blob", "Syntax(2)"),
    ("+a boolean", "Syntax(3)"),
    ("+a int primary key", "Syntax(7)"),
    ("chunk_size bit[8]", "Syntax(11)"),
    ("chunk_size='8'", "Syntax(11)"),
    ("select bit[8]", "Syntax(0)"),
    ("a bit[8], x'0", "Syntax(10)"),
    ("a OR", "Unsupported(1)"),
    ("a bit[8] default", "Unsupported(34)"),
    ("a float[4]", "Unsupported(23)"),
    ("a int8[4] distance_metric=cosine", "Unsupported(27)"),
    ("a", "Syntax(1)"),
    ("a bit", "Syntax(5)"),
    ("a bit[", "Syntax(6)"),
    ("a bit[8", "Syntax(7)"),
    ("a bit[8],", "Syntax(9)"),
    ("a bit[8] distance_metric=", "Syntax(25)"),
    ("9 int", "Syntax(0)"),
    ("a int8[]", "Syntax(7)"),
    ("a int8(2)", "Syntax(6)"),
    ("a int8[2],, b int", "Syntax(10)"),
    ("+ + a int", "Syntax(2)"),
    ("chunk_size=8 8", "Syntax(13)"),
    ("a text", "BadSchema(1)"),
    (
        "a int primary key, b text primary key, v bit[8]",
        "BadSchema(6)",
    ),
    ("v bit[8], V int8[1]", "BadSchema(7)"),
    ("rowid bit[8]", "BadSchema(8)"),
    ("v bit[8], +Distance text", "BadSchema(8)"),
    ("K int8[0]", "BadSchema(8)"),
    ("a int8[0]", "BadSchema(9)"),
    ("a int8[8193]", "BadSchema(9)"),
    ("a int8[65537]", "BadSchema(9)"),
    ("a int8[9223372036854775807]", "BadSchema(9)"),
    ("a bit[12]", "BadSchema(10)"),
    ("a bit[65544] distance_metric=l2", "BadSchema(10)"),
    ("a bit[8] distance_metric=l2", "BadSchema(11)"),
    ("a bit[8] distance_metric=l1, chunk_size=0", "BadSchema(11)"),
    ("a bit[8], chunk_size=8, chunk_size=8", "BadSchema(12)"),
    ("a bit[8], chunk_size=4104", "BadSchema(12)"),
    ("a bit[8], chunk_size=65544", "BadSchema(12)"),
    (
        "c0 int8[1], c1 int8[1], c2 int8[1], c3 int8[1], c4 int8[1], c5 int8[1], c6 int8[1], c7 int8[1], c8 int8[1], c9 int8[1], c10 int8[1], c11 int8[1], c12 int8[1], c13 int8[1], c14 int8[1], c15 int8[1], c16 int8[1]",
        "BadSchema(2)",
    ),
    (
        "c0 int partition key, c1 int partition key, c2 int partition key, c3 int partition key, c4 int partition key, v bit[8]",
        "BadSchema(3)",
    ),
    (
        "c0 bool, c1 bool, c2 bool, c3 bool, c4 bool, c5 bool, c6 bool, c7 bool, c8 bool, c9 bool, c10 bool, c11 bool, c12 bool, c13 bool, c14 bool, c15 bool, c16 bool, v bit[8]",
        "BadSchema(4)",
    ),
    (
        "+c0 blob, +c1 blob, +c2 blob, +c3 blob, +c4 blob, +c5 blob, +c6 blob, +c7 blob, +c8 blob, +c9 blob, +c10 blob, +c11 blob, +c12 blob, +c13 blob, +c14 blob, +c15 blob, +c16 blob, v bit[8]",
        "BadSchema(5)",
    ),
    ("a if", "Unsupported(20)"),
    ("vacuum bit", "Syntax(10)"),
    (
        "c0 int8[0], c1 int8[0], c2 int8[0], c3 int8[0], c4 int8[0], c5 int8[0], c6 int8[0], c7 int8[0], c8 int8[0], c9 int8[0], c10 int8[0], c11 int8[0], c12 int8[0], c13 int8[0], c14 int8[0], c15 int8[0], c16 int8[0], chunk_size=0",
        "BadSchema(2)",
    ),
    ("b bit[9], e int8[0], chunk_size=0", "BadSchema(9)"),
    ("v bit[8], chunk_size=9", "BadSchema(12)"),
];

/// What is read of the text: the canonical text of the schema, or the refusal.
fn told(alloc: Global, text: &str) -> Result<Txt, Fail> {
    match read_columns(alloc, text.as_bytes()) {
        Ok(schema) => Ok(write_columns(alloc, &schema)?),
        Err(refusal) => Ok(Txt::from_string(format!(in alloc; "{refusal:?}")?)),
    }
}

#[test]
fn texts_are_read_or_refused(rt: HostRuntime) -> Result<(), Fail> {
    let read: [(&str, &str); 8] = READ;
    for (text, wanted) in read {
        assert_eq!(rt; told(rt.alloc(), text)?.as_text(), wanted);
    }
    let refused: [(&str, &str); 72] = REFUSED;
    for (text, wanted) in refused {
        assert_eq!(rt; told(rt.alloc(), text)?.as_text(), wanted);
    }
    Ok(())
}

#[test]
fn long_names_and_long_texts_are_refused(rt: HostRuntime) -> Result<(), Fail> {
    let alloc = rt.alloc();
    for (count, wanted) in [(64usize, true), (65, false)] {
        let mut text = vec![in alloc; b'n'; count]?;
        text.extend_from_slice(b" bit[8]")?;
        assert_eq!(rt; read_columns(alloc, text.as_slice()).is_ok(), wanted);
    }
    let blank = vec![in alloc; b' '; 4_194_305]?;
    assert_eq!(rt;
        read_columns(alloc, blank.as_slice()).err(),
        Some(Refusal::Syntax(4_194_304))
    );
    Ok(())
}

#[test]
fn a_part_of_a_statement_is_read_up_to_its_end(rt: HostRuntime) {
    for (text, wanted) in [
        ("(a bit[8])", Ok(9)),
        ("(a bit[8]) #'", Ok(9)),
        ("(a bit[8]", Err(Refusal::Syntax(9))),
        ("(a bit[8]]", Err(Refusal::Syntax(9))),
        ("()", Err(Refusal::Syntax(1))),
        ("(a if)", Err(Refusal::Unsupported(20))),
        ("(a text)", Err(Refusal::BadSchema(1))),
    ] {
        let read = read_columns_at(rt.alloc(), text.as_bytes(), 1).map(|answer| answer.1);
        assert_eq!(rt; read, wanted);
    }
}
