//! Searches with one worker and with several.
ghost use Rattle.std.specs.Prelude.{◌≡◌, ◌≤◌, length, IfOk};
ghost use Rattle.vec_base.specs.declared.limits.TheConstants.{MOST_TERMS};
ghost use Rattle.knn_plan.specs.Plans.{IsPlanFor};
ghost use Rattle.nearest_tests.specs.ThreeColumns.{three_columns};

use crate::tables::{insert_alike, insert_apart, remove_all, table};
use knn_plan::{Plan, plan_select};
use nearest_query::nearest;
use row_model::{Constraint, Items, Order, Select, Test};
use std::alloc::Global;
use std::marker::Sync;
use std::sync::atomic::{AtomicU32, Ordering};
use std::test::Fail;
use std::thread::Threads;
use table_version::TableVersion;
use topk_merge::{Gate, Hit, NoGate};
use vec_base::{Bytes, List, MOST_TERMS, Op, Steps, Txt, Value};

/// A MATCH of the vector of zeros, so many rows that are wanted, and more terms.
fn terms(alloc: Global, k: i64, tests: &[(&str, Op, i64)]) -> Result<List<Constraint>, Fail>
    ensures { IfOk result (λ terms. length terms ≤ MOST_TERMS) }
{
    let mut terms = List::new(alloc);
    terms.push(Constraint {
        column: Txt::from_text(alloc, "a")?,
        test: Test::Match(Value::Int8(Bytes::from_slice(alloc, &[0, 0])?)),
    })?;
    terms.push(Constraint {
        column: Txt::from_text(alloc, "k")?,
        test: Test::Compare(Op::Eq, Value::Int(k)),
    })?;
    for (name, op, number) in tests {
        terms.push(Constraint {
            column: Txt::from_text(alloc, name)?,
            test: Test::Compare(*op, Value::Int(*number)),
        })?;
    }
    if MOST_TERMS < terms.len() {
        return Err(Fail::from("too many terms"));
    }
    Ok(terms)
}

/// The plan of the SELECT of all columns with these terms.
fn plan_of(
    alloc: Global,
    version: &TableVersion,
    where_terms: List<Constraint>,
) -> Result<Plan, Fail>
    requires columns { version.now.table.schema.columns ≡ three_columns }
    requires terms { length where_terms ≤ MOST_TERMS }
    ensures { IfOk result (λ plan. IsPlanFor version.now.table.schema.columns plan) }
{
    let select = Select {
        table: Txt::from_text(alloc, "v")?,
        items: Items::All,
        where_terms,
        order: Order::Unsaid,
        limit: None,
    };
    match plan_select(version.schema(), select) {
        Ok(plan) => Ok(plan),
        Err(_) => Err(Fail::from("refused")),
    }
}

/// A gate that counts the pieces.
#[derive(Drop)]
struct Counting {
    pieces: AtomicU32,
}

impl Gate for Counting {
    fn enter(&self, _piece: u32) {
        self.pieces.fetch_add(1, Ordering::SeqCst);
    }
}

/// What a search finds, and what it counts. Each piece is told to the gate.
fn found_with<G: Gate, R: Threads + Sync>(
    rt: &R,
    alloc: Global,
    version: &TableVersion,
    k: i64,
    tests: &[(&str, Op, i64)],
    workers: u8,
    gate: &G,
) -> Result<(List<Hit>, Steps), Fail>
    requires columns { version.now.table.schema.columns ≡ three_columns }
{
    let plan = plan_of(alloc, version, terms(alloc, k, tests)?)?;
    let mut steps = Steps::new();
    if plan.target().is_none() {
        return Err(Fail::from("no target"));
    }
    let hits = nearest(rt, alloc, version, &plan, workers.max(1), gate, &mut steps)?;
    Ok((hits, steps))
}

/// What a search finds, and what it counts.
fn found<R: Threads + Sync>(
    rt: &R,
    alloc: Global,
    version: &TableVersion,
    k: i64,
    tests: &[(&str, Op, i64)],
    workers: u8,
) -> Result<(List<Hit>, Steps), Fail>
    requires columns { version.now.table.schema.columns ≡ three_columns }
{
    found_with(rt, alloc, version, k, tests, workers, &NoGate)
}

/// How many pieces a search by 64 workers tells to its gate.
fn pieces_told<R: Threads + Sync>(
    rt: &R,
    alloc: Global,
    k: i64,
    tests: &[(&str, Op, i64)],
) -> Result<u32, Fail> {
    let version = twelve_rows(alloc)?;
    let gate = Counting {
        pieces: AtomicU32::new(0),
    };
    found_with(rt, alloc, &version, k, tests, 64, &gate)?;
    Ok(gate.pieces.load(Ordering::SeqCst))
}

fn hit(rowid: i64, distance: u32) -> Hit {
    Hit { distance, rowid }
}

/// Nine rows in a partition, three of which go, and three rows in another one.
fn twelve_rows(alloc: Global) -> Result<TableVersion, Fail>
    ensures { IfOk result (λ version. version.table.schema.columns ≡ three_columns) }
{
    let mut version = table(alloc)?;
    insert_apart(alloc, &mut version, 1, &[1, 2, 3, 4, 5, 6, 7, 8, 9])?;
    insert_apart(alloc, &mut version, 2, &[10, 11, 12])?;
    remove_all(alloc, &mut version, &[2, 4, 6])?;
    Ok(version)
}

#[test]
fn ties_are_by_rowid(rt: HostRuntime) -> Result<(), Fail> {
    let alloc = rt.alloc();
    let mut version = table(alloc)?;
    insert_alike(alloc, &mut version, &[9, 4, 7])?;
    for workers in [1, 8] {
        let (hits, _) = found(&rt, alloc, &version, 2, &[], workers)?;
        assert_eq!(rt; hits.as_slice(), [hit(4, 25), hit(7, 25)].as_slice());
    }
    Ok(())
}

#[test]
fn ties_of_several_chunks_are_by_rowid(rt: HostRuntime) -> Result<(), Fail> {
    let alloc = rt.alloc();
    let mut version = table(alloc)?;
    let falling = [
        20, 19, 18, 17, 16, 15, 14, 13, 12, 11, 10, 9, 8, 7, 6, 5, 4, 3, 2, 1,
    ];
    insert_alike(alloc, &mut version, &falling)?;
    for workers in [1, 2, 3, 64] {
        let (hits, steps) = found(&rt, alloc, &version, 3, &[], workers)?;
        assert_eq!(rt;
            hits.as_slice(),
            [hit(1, 25), hit(2, 25), hit(3, 25)].as_slice()
        );
        assert_eq!(rt; steps.reads, 20);
        assert_eq!(rt; steps.pieces, u64::from(workers).min(3));
    }
    Ok(())
}

#[test]
fn rows_that_are_gone_are_not_found(rt: HostRuntime) -> Result<(), Fail> {
    let alloc = rt.alloc();
    let version = twelve_rows(alloc)?;
    for workers in [1, 2, 3, 64] {
        let (hits, steps) = found(&rt, alloc, &version, 4, &[], workers)?;
        assert_eq!(rt;
            hits.as_slice(),
            [hit(1, 1), hit(3, 9), hit(5, 25), hit(7, 49)].as_slice()
        );
        assert_eq!(rt; steps.reads, 9);
    }
    Ok(())
}

#[test]
fn one_partition_is_read(rt: HostRuntime) -> Result<(), Fail> {
    let alloc = rt.alloc();
    let version = twelve_rows(alloc)?;
    for workers in [1, 2, 3, 64] {
        let (hits, steps) = found(&rt, alloc, &version, 2, &[("p", Op::Eq, 2)], workers)?;
        assert_eq!(rt; hits.as_slice(), [hit(10, 100), hit(11, 121)].as_slice());
        assert_eq!(rt; (steps.reads, steps.pieces), (3, 1));
    }
    Ok(())
}

#[test]
fn each_chunk_that_is_searched_is_told_to_the_gate(rt: HostRuntime) -> Result<(), Fail> {
    let alloc = rt.alloc();
    assert_eq!(rt; pieces_told(&rt, alloc, 4, &[])?, 3);
    assert_eq!(rt; pieces_told(&rt, alloc, 2, &[("p", Op::Eq, 2)])?, 1);
    Ok(())
}

#[test]
fn rows_meet_terms_on_metadata(rt: HostRuntime) -> Result<(), Fail> {
    let alloc = rt.alloc();
    let version = twelve_rows(alloc)?;
    let (hits, steps) = found(&rt, alloc, &version, 2, &[("m", Op::Gt, 5)], 2)?;
    assert_eq!(rt; hits.as_slice(), [hit(7, 49), hit(8, 64)].as_slice());
    assert_eq!(rt; steps.reads, 6);
    Ok(())
}

#[test]
fn rows_meet_terms_on_the_rowid(rt: HostRuntime) -> Result<(), Fail> {
    let alloc = rt.alloc();
    let version = twelve_rows(alloc)?;
    let (hits, steps) = found(&rt, alloc, &version, 2, &[("rowid", Op::Ge, 8)], 2)?;
    assert_eq!(rt; hits.as_slice(), [hit(8, 64), hit(9, 81)].as_slice());
    assert_eq!(rt; steps.reads, 5);
    Ok(())
}

#[test]
fn distances_meet_bounds(rt: HostRuntime) -> Result<(), Fail> {
    let alloc = rt.alloc();
    let version = twelve_rows(alloc)?;
    let bounds = [("distance", Op::Gt, 9), ("distance", Op::Lt, 60)];
    let (hits, steps) = found(&rt, alloc, &version, 4, &bounds, 3)?;
    assert_eq!(rt; hits.as_slice(), [hit(5, 25), hit(7, 49)].as_slice());
    assert_eq!(rt; steps.reads, 9);
    Ok(())
}

#[test]
fn an_empty_table_has_no_nearest_rows(rt: HostRuntime) -> Result<(), Fail> {
    let alloc = rt.alloc();
    let version = table(alloc)?;
    let (hits, steps) = found(&rt, alloc, &version, 3, &[], 4)?;
    assert!(rt; hits.is_empty());
    assert_eq!(rt; (steps.reads, steps.pieces), (0, 0));
    Ok(())
}
