//! Requests that are drawn.
ghost use Rattle.std.specs.Prelude.{◌<◌};

use crate::compared::compare_all;
use std::alloc::{AllocError, Global};
use std::test::Fail;
use vec_base::Memory;
use vec_text::put_number;

/// Numbers that are drawn one after another, the same from the same beginning.
#[derive(Drop)]
struct Draws {
    state: u64,
}

impl Draws {
    /// A number below a bound.
    fn below(&mut self, bound: u64) -> u64
        requires { 0 < bound }
        ensures { result < bound }
    {
        self.state = self
            .state
            .wrapping_mul(6364136223846793005)
            .wrapping_add(1442695040888963407);
        (self.state >> 33) % bound
    }
}

/// What is asked. In a form `@` stands for a session, seldom the one that leaves, `$` for a table, `&` for a savepoint, `!` for a cursor, and `#` for a
/// number from 0 to 9.
const FORMS: [&str; 40] = [
    "@ BEGIN",
    "@ BEGIN IMMEDIATE",
    "@ COMMIT",
    "@ COMMIT",
    "@ COMMIT",
    "@ ROLLBACK",
    "@ SAVEPOINT &",
    "@ SAVEPOINT &",
    "@ ROLLBACK TO &",
    "@ RELEASE &",
    "@ RELEASE &",
    "@ INSERT INTO $(a, m) VALUES (vec_int8('[#,#]'), #)",
    "@ INSERT INTO $(a, m) VALUES (vec_int8('[-#,#]'), #), (vec_int8('[#,-#]'), #)",
    "@ INSERT INTO $(rowid, a, m) VALUES (##, vec_int8('[#,#]'), #)",
    "@ INSERT INTO $(rowid, a, m, n) VALUES (#, vec_int8('[#,#]'), #, 'n#')",
    "@ INSERT INTO $(a, m) VALUES (vec_int8('[#]'), NULL)",
    "@ INSERT INTO $(a, m, zz) VALUES (vec_int8('[#,#]'), #, #)",
    "@ INSERT INTO $(a, m) VALUES (#, #)",
    "@ UPDATE $ SET m = # WHERE rowid >= ##",
    "@ UPDATE $ SET a = vec_int8('[#,#]'), n = 'm#' WHERE m = #",
    "@ UPDATE $ SET rowid = #",
    "@ DELETE FROM $ WHERE rowid IN (#, #, ##)",
    "@ DELETE FROM $ WHERE m < # AND rowid > #",
    "@ SELECT * FROM $",
    "@ SELECT rowid, m FROM $ WHERE m >= # LIMIT #",
    "@ SELECT rowid, a, n FROM $ WHERE rowid = #",
    "@ SELECT rowid, distance FROM $ WHERE a MATCH vec_int8('[#,#]') AND k = #",
    "@ SELECT rowid, a FROM $ WHERE a MATCH vec_int8('[#,-#]') AND m <> # ORDER BY distance LIMIT #",
    "@ EXPLAIN SELECT * FROM $ WHERE rowid = #",
    "@ EXPLAIN SELECT m FROM $",
    "@ cursor SELECT rowid, a FROM $ WHERE m <= #",
    "@ cursor SELECT rowid, distance FROM $ WHERE a MATCH vec_int8('[#,#]') AND k = #",
    "@ fetch ! #",
    "@ fetch ! #",
    "@ fetch ! 1",
    "@ close !",
    "@ CREATE VIRTUAL TABLE $ USING vec0(a int8[2], m integer, +n text, chunk_size=8)",
    "@ DROP TABLE $",
    "4 leave",
    "open",
];

/// Writes what a mark of a form stands for, or any other character as it is.
fn put_mark(to: &mut String, draws: &mut Draws, mark: char) -> Result<(), AllocError> {
    match mark {
        '@' => put_number(to, 1 + draws.below(13) / 4),
        '#' => put_number(to, draws.below(10)),
        '!' => put_number(to, 1 + draws.below(6)),
        '$' => to.push(if draws.below(4) == 0 { 'w' } else { 'v' }),
        '&' => to.push(if draws.below(2) == 0 { 'r' } else { 's' }),
        other => to.push(other),
    }
}

/// Writes a form whose marks are drawn.
fn put_form(to: &mut String, draws: &mut Draws, form: &str) -> Result<(), AllocError> {
    for mark in form.chars() {
        put_mark(to, draws, mark)?;
    }
    to.push('\n')
}

/// Lines of so many requests, drawn from a beginning, behind those that open four sessions and make two tables.
fn drawn(alloc: Global, beginning: u64, count: u32) -> Result<String, Memory> {
    let mut draws = Draws { state: beginning };
    let mut lines = String::from_str(alloc, OPENING)?;
    for _ in 0..count {
        if let Some(form) = FORMS.get(draws.below(40) as usize) {
            put_form(&mut lines, &mut draws, form)?;
        }
    }
    Ok(lines)
}

const OPENING: &str = "\
open
open
open
open
1 CREATE VIRTUAL TABLE v USING vec0(a int8[2], m integer, +n text, chunk_size=8)
2 CREATE VIRTUAL TABLE w USING vec0(a int8[2], m integer, +n text, chunk_size=8)
";

/// Three times four hundred requests of four sessions and more.
#[test]
fn drawn_requests_are_answered_alike(rt: HostRuntime) -> Result<(), Fail> {
    let alloc = rt.alloc();
    for beginning in [1, 20, 300] {
        let lines = drawn(alloc, beginning, 400)?;
        let compared = compare_all(&rt, alloc, lines.as_str())?;
        assert_eq!(rt; compared.unlike.as_str(), "");
        assert_eq!(rt; compared.count, 406);
    }
    Ok(())
}
