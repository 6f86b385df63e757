//! The rows that a SELECT answers, and the work that is counted.
use crate::tables::{plan_of, put_rows, twelve_rows};
use std::alloc::Global;
use std::marker::Sync;
use std::test::Fail;
use std::thread::Threads;
use table_answers::select_rows;
use table_version::TableVersion;
use topk_merge::NoGate;
use vec_base::{Refusal, Steps};

/// What a SELECT over the twelve rows answers by so many workers, and how many vectors and pieces are counted.
fn answer<R: Threads + Sync>(
    rt: &R,
    alloc: Global,
    version: &TableVersion,
    text: &str,
    workers: u8,
) -> Result<String, Refusal> {
    let plan = plan_of(alloc, version, text)?;
    let mut steps = Steps::new();
    let rows = select_rows(
        rt,
        alloc,
        version,
        &plan,
        workers.max(1),
        &NoGate,
        &mut steps,
    )?;
    let mut told = String::new(alloc);
    match put_rows(&mut told, &rows) {
        Ok(()) => {}
        Err(_) => return Err(Refusal::WantOfMemory),
    }
    match format!(in alloc; "{told}reads {} pieces {}", steps.reads, steps.pieces) {
        Ok(told) => Ok(told),
        Err(_) => Err(Refusal::WantOfMemory),
    }
}

/// What a SELECT over the twelve rows answers.
fn answered<R: Threads + Sync>(
    rt: &R,
    alloc: Global,
    text: &str,
    workers: u8,
) -> Result<String, Refusal> {
    let version = twelve_rows(alloc)?;
    answer(rt, alloc, &version, text, workers)
}

/// Twelve vectors in three chunks are searched, and a vector of each row of the answer is read.
#[test]
fn the_nearest_rows_are_answered(rt: HostRuntime) -> Result<(), Fail> {
    let text = "SELECT rowid, distance, a FROM v WHERE a MATCH vec_int8('[3,0]') AND k = 3";
    for (workers, pieces) in [(1, 1), (2, 2), (64, 3)] {
        let told = answered(&rt, rt.alloc(), text, workers)?;
        let wanted = format!(in rt.alloc();
            "3|0|vec_int8('[3,0]') 2|1|vec_int8('[2,0]') 4|1|vec_int8('[4,0]') reads 15 pieces {pieces}"
        )?;
        assert_eq!(rt; told, wanted);
    }
    Ok(())
}

/// Only the chunk of the wanted partition is searched.
#[test]
fn the_nearest_rows_of_a_partition_are_answered(rt: HostRuntime) -> Result<(), Fail> {
    let text = "SELECT rowid FROM v WHERE a MATCH vec_int8('[3,0]') AND k = 2 AND p = 2";
    let told = answered(&rt, rt.alloc(), text, 64)?;
    assert_eq!(rt; told.as_str(), "10 11 reads 3 pieces 1");
    Ok(())
}

/// One row is looked up, and of its vectors only those are read that are answered.
#[test]
fn the_row_of_a_rowid_is_answered(rt: HostRuntime) -> Result<(), Fail> {
    let told = answered(
        &rt,
        rt.alloc(),
        "SELECT * FROM v WHERE rowid = 7 AND m > 60",
        1,
    )?;
    assert_eq!(rt; told.as_str(), "7|1|vec_int8('[7,0]')|70 reads 1 pieces 0");
    Ok(())
}

/// A scan answers by rising rowids, up to LIMIT.
#[test]
fn the_rows_of_a_scan_are_answered(rt: HostRuntime) -> Result<(), Fail> {
    let told = answered(
        &rt,
        rt.alloc(),
        "SELECT rowid, m FROM v WHERE m > 70 LIMIT 4",
        1,
    )?;
    assert_eq!(rt; told.as_str(), "8|80 9|90 10|100 11|110 reads 0 pieces 0");
    Ok(())
}
