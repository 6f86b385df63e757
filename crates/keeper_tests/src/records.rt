//! Records of a keeper in memory: what it gives, and what it holds.
ghost use Rattle.std.specs.Prelude.{◌≡◌, IsTrue, IfOk};
ghost use Rattle.keeper_tests.specs.Batches.{three_records};

use shadow_keeper::{Keeper, Loaded, MemoryKeeper};
use std::alloc::Global;
use std::test::Fail;
use vec_base::{Bytes, List, Memory, ShadowKey};

/// A key.
pub const FIRST: ShadowKey = ShadowKey {
    table: 1,
    kind: 4,
    a: 1,
    b: 0,
};

/// The key behind it.
pub const SECOND: ShadowKey = ShadowKey {
    table: 1,
    kind: 4,
    a: 2,
    b: 0,
};

/// The key behind both.
pub const THIRD: ShadowKey = ShadowKey {
    table: 1,
    kind: 4,
    a: 3,
    b: 0,
};

/// What a call for the next record told: of a record the first number of its key and how many bytes it has.
#[derive(Clone, Copy, Debug, PartialEq, Eq)]
enum Told {
    Record(i64, usize),
    End,
    Failed,
    Memory,
}

/// Asks for the next record.
fn next(keeper: &mut MemoryKeeper) -> Told {
    match keeper.next_record() {
        Loaded::One(key, body) => Told::Record(key.a, body.len()),
        Loaded::End => Told::End,
        Loaded::Failed => Told::Failed,
        Loaded::Memory => Told::Memory,
    }
}

/// Asks any keeper for the next record, and answers whether it told the end.
pub fn is_end<K: Keeper>(keeper: &mut K) -> bool
    ensures ended { IsTrue result → IsTrue (K.ended keeper.new) }
    ensures tells { K.tells keeper.new ≡ K.tells keeper.old }
    ensures tables { IsTrue (K.tells keeper.old) → K.tables keeper.new ≡ K.tables keeper.old }
{
    match keeper.next_record() {
        Loaded::End => true,
        Loaded::One(_, _) => false,
        Loaded::Failed => false,
        Loaded::Memory => false,
    }
}

/// Whether the keeper holds these records and no others: of each the first number of its key, and its body.
pub fn holds(
    alloc: Global,
    keeper: &MemoryKeeper,
    wanted: &[(i64, &[u8])],
) -> Result<bool, Memory> {
    let records = keeper.tables(alloc)?;
    if records.len() != wanted.len() {
        return Ok(false);
    }
    for (record, (a, bytes)) in records.as_slice().iter().zip(wanted) {
        if record.0.a != *a || record.1.as_slice() != *bytes {
            return Ok(false);
        }
    }
    Ok(true)
}

/// Three records with rising keys.
pub fn three(alloc: Global) -> Result<List<(ShadowKey, Bytes)>, Memory>
    ensures { IfOk result (λ records. records ≡ three_records) }
{
    let mut records = List::new(alloc);
    records.push((FIRST, Bytes::from_slice(alloc, &[1])?))?;
    records.push((SECOND, Bytes::from_slice(alloc, &[2, 3])?))?;
    records.push((THIRD, Bytes::new(alloc)))?;
    Ok(records)
}

/// What a keeper of three records tells in six calls, of which the second fails.
fn six_calls(alloc: Global) -> Result<[Told; 6], Memory> {
    let mut fails = List::new(alloc);
    fails.push(2)?;
    let mut keeper = MemoryKeeper::new(alloc, three(alloc)?, fails)?;
    let (first, second, third) = (next(&mut keeper), next(&mut keeper), next(&mut keeper));
    let (fourth, fifth, sixth) = (next(&mut keeper), next(&mut keeper), next(&mut keeper));
    Ok([first, second, third, fourth, fifth, sixth])
}

/// Whether a keeper without records tells the end at once, and holds none.
fn without_records(alloc: Global) -> Result<(bool, bool), Memory> {
    let mut keeper = MemoryKeeper::new(alloc, List::new(alloc), List::new(alloc))?;
    let ended = is_end(&mut keeper);
    Ok((ended, holds(alloc, &keeper, &[])?))
}

#[test]
fn records_are_given_once_with_rising_keys(rt: HostRuntime) -> Result<(), Fail> {
    assert_eq!(rt;
        six_calls(rt.alloc()),
        Ok([
            Told::Record(1, 1),
            Told::Failed,
            Told::Record(2, 2),
            Told::Record(3, 0),
            Told::End,
            Told::End,
        ])
    );
    Ok(())
}

#[test]
fn without_records_the_end_comes_at_once(rt: HostRuntime) -> Result<(), Fail> {
    assert_eq!(rt; without_records(rt.alloc()), Ok((true, true)));
    Ok(())
}
