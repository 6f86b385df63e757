//! Texts of statements: what they spell, written as the canonical text, and their refusals.

use std::alloc::Global;
use std::test::Fail;
use vec_base::{Bytes, List, Txt, Value};
use vec_sql::{read_statement, write_statement};

/// Texts, and the canonical texts of the statements that they spell without parameters, or their refusals.
const TEXTS: [(&str, &str); 35] = [
    (
        "insert into V(A) values(vec_int8('[1, 2]'));",
        "INSERT INTO v (a) VALUES (vec_int8('[1,2]'))",
    ),
    (
        "INSERT INTO v (a, b) VALUES (vec_int8('[1,-2]'), NULL), (x'0aFF', 'it''s')",
        "INSERT INTO v (a, b) VALUES (vec_int8('[1,-2]'), NULL), (X'0AFF', 'it''s')",
    ),
    (
        "INSERT INTO v (a, b) VALUES (vec_bit(X'0f'), vec_int8(x'01fe')), (TRUE, -0007)",
        "INSERT INTO v (a, b) VALUES (vec_bit(X'0F'), vec_int8('[1,-2]')), (1, -7)",
    ),
    (
        "CREATE virtual TABLE t USING vec0 (A int8[2])",
        "CREATE VIRTUAL TABLE t USING vec0(a int8[2] distance_metric=l2, chunk_size=1024)",
    ),
    ("drop table T;", "DROP TABLE t"),
    (
        "UPDATE t SET a = 'it''s', b=x'00FF' WHERE c IN (1, -2) AND d <> NULL",
        "UPDATE t SET a = 'it''s', b = X'00FF' WHERE c IN (1, -2) AND d != NULL",
    ),
    ("UPDATE t SET a = FALSE", "UPDATE t SET a = 0"),
    (
        "delete from t where a>=1 and b<2 and c==3 and d!=4 and e>5 and f<=6",
        "DELETE FROM t WHERE a >= 1 AND b < 2 AND c = 3 AND d != 4 AND e > 5 AND f <= 6",
    ),
    ("DELETE FROM t", "DELETE FROM t"),
    (
        "SELECT * FROM t ORDER BY distance ASC, rowid LIMIT 3",
        "SELECT * FROM t ORDER BY distance LIMIT 3",
    ),
    (
        "SELECT a,b FROM t ORDER BY ROWID ASC",
        "SELECT a, b FROM t ORDER BY rowid",
    ),
    (
        "EXPLAIN SELECT a, b FROM t WHERE a MATCH vec_bit(x'0F') AND k == TRUE",
        "EXPLAIN SELECT a, b FROM t WHERE a MATCH vec_bit(X'0F') AND k = 1",
    ),
    ("BEGIN DEFERRED TRANSACTION", "BEGIN"),
    ("BEGIN IMMEDIATE", "BEGIN IMMEDIATE"),
    ("END TRANSACTION", "COMMIT"),
    ("ROLLBACK", "ROLLBACK"),
    ("ROLLBACK TRANSACTION TO SAVEPOINT S", "ROLLBACK TO s"),
    ("SAVEPOINT s1", "SAVEPOINT s1"),
    ("RELEASE SAVEPOINT s1;", "RELEASE s1"),
    ("", "Syntax(0)"),
    ("SELECT a FROM t WHERE a LIKE 1", "Unsupported(5)"),
    ("SELECT a FROM t LIMIT -9223372036854775809", "Syntax(23)"),
    ("INSERT INTO t (a) VALUES (vec_int8('[1,'))", "Syntax(35)"),
    ("INSERT INTO t (a, b) VALUES (1, 2), (3)", "Syntax(38)"),
    ("SELECT a FROM t WHERE a = ?2", "Parameter(1)"),
    (
        "CREATE VIRTUAL TABLE t USING vec0(a integer)",
        "BadSchema(1)",
    ),
    ("CREATE VIRTUAL TABLE t USING vec0(a int8[4]", "Syntax(43)"),
    ("COMMIT TRANSACTION; ;", "Syntax(20)"),
    (
        "INSERT INTO t (a) VALUES (vec_int8('[1')), (?2), (1, 2) LIMIT",
        "Syntax(56)",
    ),
    (
        "INSERT INTO t (a, b) VALUES (vec_int8(''), 1), (?2)",
        "Syntax(38)",
    ),
    (
        "INSERT INTO t (a, b) VALUES (?1), (vec_int8('x'), 1)",
        "Syntax(31)",
    ),
    (
        "SELECT a, a, a, a, a, a, a, a, a, a, a, a, a, a, a, a, a, a, a, a, a, a, a, a, a, a, a, a, a, a, a, a, a, a, a, a, a, a, a, a, a, a, a, a, a, a, a, a, a, a, a, a, a, a, a, a, a, a, a, a, a, a, a, a, a FROM t WHERE a = ?1",
        "Parameter(1)",
    ),
    (
        "SELECT a, a, a, a, a, a, a, a, a, a, a, a, a, a, a, a, a, a, a, a, a, a, a, a, a, a, a, a, a, a, a, a, a, a, a, a, a, a, a, a, a, a, a, a, a, a, a, a, a, a, a, a, a, a, a, a, a, a, a, a, a, a, a, a, a FROM t",
        "Full(12, 65)",
    ),
    (
        "SELECT a, a, a, a, a, a, a, a, a, a, a, a, a, a, a, a, a, a, a, a, a, a, a, a, a, a, a, a, a, a, a, a, a, a, a, a, a, a, a, a, a, a, a, a, a, a, a, a, a, a, a, a, a, a, a, a, a, a, a, a, a, a, a, a, a, a FROM t WHERE a = 1 AND a = 1 AND a = 1 AND a = 1 AND a = 1 AND a = 1 AND a = 1 AND a = 1 AND a = 1 AND a = 1 AND a = 1 AND a = 1 AND a = 1 AND a = 1 AND a = 1 AND a = 1 AND a = 1 AND a = 1 AND a = 1 AND a = 1 AND a = 1 AND a = 1 AND a = 1 AND a = 1 AND a = 1 AND a = 1 AND a = 1 AND a = 1 AND a = 1 AND a = 1 AND a = 1 AND a = 1 AND a = 1 AND a = 1 AND a = 1 AND a = 1 AND a = 1 AND a = 1 AND a = 1 AND a = 1 AND a = 1 AND a = 1 AND a = 1 AND a = 1 AND a = 1 AND a = 1 AND a = 1 AND a = 1 AND a = 1 AND a = 1 AND a = 1 AND a = 1 AND a = 1 AND a = 1 AND a = 1 AND a = 1 AND a = 1 AND a = 1 AND a = 1 AND a = 1 AND a = 1 AND a = 1 AND a = 1 AND a = 1 AND a = 1",
        "Full(12, 66)",
    ),
    (
        "DELETE FROM t WHERE a = 1 AND a = 1 AND a = 1 AND a = 1 AND a = 1 AND a = 1 AND a = 1 AND a = 1 AND a = 1 AND a = 1 AND a = 1 AND a = 1 AND a = 1 AND a = 1 AND a = 1 AND a = 1 AND a = 1 AND a = 1 AND a = 1 AND a = 1 AND a = 1 AND a = 1 AND a = 1 AND a = 1 AND a = 1 AND a = 1 AND a = 1 AND a = 1 AND a = 1 AND a = 1 AND a = 1 AND a = 1 AND a = 1 AND a = 1 AND a = 1 AND a = 1 AND a = 1 AND a = 1 AND a = 1 AND a = 1 AND a = 1 AND a = 1 AND a = 1 AND a = 1 AND a = 1 AND a = 1 AND a = 1 AND a = 1 AND a = 1 AND a = 1 AND a = 1 AND a = 1 AND a = 1 AND a = 1 AND a = 1 AND a = 1 AND a = 1 AND a = 1 AND a = 1 AND a = 1 AND a = 1 AND a = 1 AND a = 1 AND a = 1 AND a = 1",
        "Full(12, 65)",
    ),
];

/// What is read of the text with the parameters: the canonical text of the statement, or the refusal.
fn told(alloc: Global, text: &str, params: &List<Value>) -> Result<Txt, Fail> {
    match read_statement(alloc, text.as_bytes(), params) {
        Ok(statement) => Ok(write_statement(alloc, &statement)?),
        Err(refusal) => Ok(Txt::from_string(format!(in alloc; "{refusal:?}")?)),
    }
}

#[test]
fn texts_are_read_and_written_or_refused(rt: HostRuntime) -> Result<(), Fail> {
    let texts: [(&str, &str); 35] = TEXTS;
    let none = List::new(rt.alloc());
    for (text, wanted) in texts {
        assert_eq!(rt; told(rt.alloc(), text, &none)?.as_text(), wanted);
    }
    Ok(())
}

#[test]
fn parameters_stand_for_values(rt: HostRuntime) -> Result<(), Fail> {
    let alloc = rt.alloc();
    let mut params = List::new(alloc);
    params.push(Value::Text(Txt::from_text(alloc, "[ 5 ]")?))?;
    params.push(Value::Int(7))?;
    for (text, wanted) in [
        (
            "INSERT INTO t (a, b) VALUES (vec_int8(?), ?1), (vec_int8('[1,-2]'), ?)",
            "INSERT INTO t (a, b) VALUES (vec_int8('[5]'), '[ 5 ]'), (vec_int8('[1,-2]'), 7)",
        ),
        ("DELETE FROM t WHERE a = ?1", "Parameter(2)"),
        ("DELETE FROM t WHERE a = ?3", "Parameter(3)"),
        (
            "DELETE FROM t WHERE a = vec_bit(?2) AND b = vec_bit(?1)",
            "Parameter(1)",
        ),
        (
            "DELETE FROM t WHERE a = vec_int8(?2) AND b = ?1",
            "Parameter(2)",
        ),
    ] {
        assert_eq!(rt; told(alloc, text, &params)?.as_text(), wanted);
    }
    Ok(())
}

/// The parameters of one value of each kind: NULL, a number, two texts, a blob and vectors.
fn kinds(alloc: Global) -> Result<[Value; 7], Fail> {
    let vector = || Bytes::from_slice(alloc, b"\x01\xfe");
    Ok([
        Value::Null,
        Value::Int(1),
        Value::Text(Txt::from_text(alloc, "[1,-2]")?),
        Value::Text(Txt::from_text(alloc, "[1,-2")?),
        Value::Blob(vector()?),
        Value::Int8(vector()?),
        Value::Bits(vector()?),
    ])
}

#[test]
fn each_kind_of_parameter_has_its_places(rt: HostRuntime) -> Result<(), Fail> {
    for (text, taken) in [
        ("UPDATE t SET a = ?", [true; 7]),
        ("SELECT a FROM t LIMIT ?1", [true; 7]),
        (
            "SELECT a FROM t WHERE a MATCH vec_int8(?)",
            [false, false, true, false, true, true, false],
        ),
        (
            "INSERT INTO t(a) VALUES (vec_bit(?1))",
            [false, false, false, false, true, false, true],
        ),
    ] {
        for (value, taken) in kinds(rt.alloc())?.into_iter().zip(taken) {
            let mut params = List::new(rt.alloc());
            params.push(value)?;
            let refused = told(rt.alloc(), text, &params)?.as_text() == "Parameter(1)";
            assert_eq!(rt; refused, !taken);
        }
    }
    Ok(())
}
