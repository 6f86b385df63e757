//! Engines over tables that were kept.
ghost use Rattle.std.specs.Prelude.{◌≡◌, true, IfOk};
ghost use Rattle.std.specs.FinMap.{is_sorted};
ghost use Rattle.shadow_keeper.specs.Keeping.{tables_of};
ghost use Rattle.shadow_keeper.specs.Memory.{memory_left, memory_tables};
ghost use Rattle.shadow_records.specs.Keys.{key_cmp};

use crate::memory_engine::engine_over;
use crate::script::played;
use shadow_keeper::MemoryKeeper;
use std::alloc::Global;
use std::marker::Sync;
use std::test::Fail;
use std::thread::Threads;
use txn_core::{Engine, Started};
use vec_base::{Bytes, List, Memory, ShadowKey};

/// A keeper of the records. Its calls of these numbers fail.
fn keeper_of(
    alloc: Global,
    records: List<(ShadowKey, Bytes)>,
    fails: &[u64],
) -> Result<MemoryKeeper, Memory>
    requires { is_sorted key_cmp records ≡ true }
    ensures { IfOk result (λ keeper. memory_tables keeper ≡ tables_of (memory_left keeper)) }
{
    let fails = List::from_vec(Vec::from_slice(alloc, fails)?);
    MemoryKeeper::new(alloc, records, fails)
}

/// A keeper of the records that another one has. Its calls of these numbers fail.
fn keeper_again(alloc: Global, keeper: &MemoryKeeper, fails: &[u64]) -> Result<MemoryKeeper, Memory>
    ensures { IfOk result (λ again. memory_tables again ≡ tables_of (memory_left again)) }
{
    keeper_of(alloc, keeper.tables(alloc)?, fails)
}

/// The requests of a script and their replies on the engine that is opened over a keeper, or why none is.
fn opened<R: Threads + Sync>(
    rt: &R,
    alloc: Global,
    keeper: MemoryKeeper,
    script: &str,
) -> Result<String, Memory>
    requires { memory_tables keeper ≡ tables_of (memory_left keeper) }
{
    match Engine::start(alloc, keeper) {
        Started::Ready(mut engine) => played(rt, alloc, &mut engine, script),
        Started::Failed(_) => Ok(format!(in alloc; "failed")?),
        Started::Damaged(number, _) => Ok(format!(in alloc; "damaged {number}")?),
        Started::Memory(_) => Err(Memory),
    }
}

/// What a script is answered by an engine that is opened over what another one has kept.
fn reopened<R: Threads + Sync>(
    rt: &R,
    alloc: Global,
    before: &str,
    fails: &[u64],
    script: &str,
) -> Result<String, Memory> {
    let mut engine = engine_over(alloc, &[])?;
    played(rt, alloc, &mut engine, before)?;
    let keeper = keeper_again(alloc, &engine.finish(), fails)?;
    opened(rt, alloc, keeper, script)
}

const TWO_TABLES: &str = "\
open
1 CREATE VIRTUAL TABLE v USING vec0(id text primary key, p integer partition key, a int8[2], m text, +x blob, chunk_size=8)
1 CREATE VIRTUAL TABLE w USING vec0(b bit[8])
1 INSERT INTO v(id, p, a, m, x) VALUES ('one', 1, vec_int8('[1,2]'), 'short', X'01'), ('two', 2, vec_int8('[3,4]'), 'longer than twelve', NULL)
1 INSERT INTO v(id, p, a, m) VALUES ('three', 1, vec_int8('[5,6]'), '')
1 INSERT INTO w(rowid, b) VALUES (9, vec_bit(X'0F'))
1 DELETE FROM v WHERE id = 'three'
1 DELETE FROM w
1 BEGIN
1 INSERT INTO w(b) VALUES (vec_bit(X'FF'))
";

/// The committed rows are there and the others are not, rowids go on above the greatest that a table held, and what is kept then is searched.
const GOES_ON: &str = "\
1 SELECT rowid FROM w => error 21 no session
open => session 1
1 SELECT * FROM v => 'one'|1|vec_int8('[1,2]')|'short'|X'01' / 'two'|2|vec_int8('[3,4]')|'longer than twelve'|NULL / rows 2
1 SELECT rowid FROM w => rows 0
1 INSERT INTO w(b) VALUES (vec_bit(X'F0')) => inserted 1 last 10
1 INSERT INTO v(id, p, a, m) VALUES ('two', 2, vec_int8('[0,0]'), '') => error 17 duplicate rowid 2
1 INSERT INTO v(id, p, a, m) VALUES ('four', 2, vec_int8('[0,0]'), '') => inserted 1 last 4
1 SELECT id, distance FROM v WHERE a MATCH vec_int8('[0,0]') AND k = 2 => 'four'|0 / 'one'|5 / rows 2
";

/// An engine over kept tables has their committed rows, and goes on with them.
#[test]
fn kept_tables_are_opened(rt: HostRuntime) -> Result<(), Fail> {
    let told = reopened(&rt, rt.alloc(), TWO_TABLES, &[], GOES_ON)?;
    assert_eq!(rt; told.as_str(), GOES_ON);
    Ok(())
}

/// A keeper whose call fails opens no engine.
#[test]
fn a_failing_keeper_is_not_opened(rt: HostRuntime) -> Result<(), Fail> {
    let told = reopened(&rt, rt.alloc(), TWO_TABLES, &[3], GOES_ON)?;
    assert_eq!(rt; told.as_str(), "failed");
    Ok(())
}

/// What comes of opening an engine over one record that no table has.
fn damaged<R: Threads + Sync>(rt: &R, alloc: Global) -> Result<String, Memory> {
    let key = ShadowKey {
        table: 3,
        kind: 9,
        a: 0,
        b: 0,
    };
    let mut records = List::new(alloc);
    records.push((key, Bytes::new(alloc)))?;
    let keeper = keeper_of(alloc, records, &[])?;
    opened(rt, alloc, keeper, GOES_ON)
}

/// Records that are those of no table open no engine; the number of the table is told.
#[test]
fn damaged_tables_are_not_opened(rt: HostRuntime) -> Result<(), Fail> {
    let told = damaged(&rt, rt.alloc())?;
    assert_eq!(rt; told.as_str(), "damaged 3");
    Ok(())
}
