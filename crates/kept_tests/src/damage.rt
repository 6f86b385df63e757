//! Records of a table of which one is left out, is cut, or is too long.
use crate::keeping::{empty, is_damaged, put};
use crate::sample::kept_rows;
use shadow_keeper::MemoryKeeper;
use std::alloc::Global;
use std::test::Fail;
use vec_base::{Bytes, ShadowKey};

/// What is done to a record.
#[derive(Clone, Copy)]
enum Damage {
    LeftOut,
    Shorter,
    Longer,
}

/// Puts a record without its last byte.
fn put_shorter(
    alloc: Global,
    keeper: &mut MemoryKeeper,
    record: &(ShadowKey, Bytes),
) -> Result<(), Fail> {
    match record.1.as_slice().split_last() {
        Some((_, front)) => put(alloc, keeper, record.0, front),
        None => Err(Fail::from("no byte")),
    }
}

/// Puts a record with a byte behind its last one.
fn put_longer(
    alloc: Global,
    keeper: &mut MemoryKeeper,
    record: &(ShadowKey, Bytes),
) -> Result<(), Fail> {
    let mut longer = record.1.copy(alloc)?;
    longer.push(0)?;
    put(alloc, keeper, record.0, longer.as_slice())
}

/// Puts a damaged record.
fn put_damaged(
    alloc: Global,
    keeper: &mut MemoryKeeper,
    record: &(ShadowKey, Bytes),
    damage: Damage,
) -> Result<(), Fail> {
    match damage {
        Damage::LeftOut => Ok(()),
        Damage::Shorter => put_shorter(alloc, keeper, record),
        Damage::Longer => put_longer(alloc, keeper, record),
    }
}

/// Puts the records, the one at a place damaged.
fn put_all(
    alloc: Global,
    keeper: &mut MemoryKeeper,
    records: &[(ShadowKey, Bytes)],
    damaged: usize,
    damage: Damage,
) -> Result<(), Fail> {
    for (at, record) in records.iter().enumerate() {
        if at == damaged {
            put_damaged(alloc, keeper, record, damage)?;
        } else {
            put(alloc, keeper, record.0, record.1.as_slice())?;
        }
    }
    Ok(())
}

/// Whether the records are those of no table where the one at a place is damaged.
fn is_refused(
    alloc: Global,
    records: &[(ShadowKey, Bytes)],
    damaged: usize,
    damage: Damage,
) -> Result<bool, Fail> {
    let mut keeper = empty(alloc)?;
    put_all(alloc, &mut keeper, records, damaged, damage)?;
    is_damaged(alloc, &keeper)
}

/// How many records there are, where the damage of each is refused, or before the first that is not.
fn refused_among(
    alloc: Global,
    records: &[(ShadowKey, Bytes)],
    damage: Damage,
) -> Result<usize, Fail> {
    for at in 0..records.len() {
        if !is_refused(alloc, records, at, damage)? {
            return Ok(at);
        }
    }
    Ok(records.len())
}

/// The same of the records of three rows.
fn refused(alloc: Global, damage: Damage) -> Result<usize, Fail> {
    let keeper = kept_rows(alloc)?;
    let records = keeper.tables(alloc)?;
    refused_among(alloc, records.as_slice(), damage)
}

/// Whether the records are refused as they are.
fn whole_refused(alloc: Global) -> Result<bool, Fail> {
    let keeper = kept_rows(alloc)?;
    is_damaged(alloc, &keeper)
}

#[test]
fn records_that_are_whole_are_taken(rt: HostRuntime) -> Result<(), Fail> {
    assert_eq!(rt; whole_refused(rt.alloc())?, false);
    Ok(())
}

#[test]
fn without_any_one_of_eighteen_records_there_is_no_table(rt: HostRuntime) -> Result<(), Fail> {
    assert_eq!(rt; refused(rt.alloc(), Damage::LeftOut)?, 18);
    Ok(())
}

#[test]
fn each_record_that_is_cut_is_refused(rt: HostRuntime) -> Result<(), Fail> {
    assert_eq!(rt; refused(rt.alloc(), Damage::Shorter)?, 18);
    Ok(())
}

#[test]
fn each_record_that_is_too_long_is_refused(rt: HostRuntime) -> Result<(), Fail> {
    assert_eq!(rt; refused(rt.alloc(), Damage::Longer)?, 18);
    Ok(())
}
