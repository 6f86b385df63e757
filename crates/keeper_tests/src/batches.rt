//! What batches make of the tables.
ghost use Rattle.std.specs.Prelude.{◌≡◌, [], ◌∷◌, IsTrue, IfOk};
ghost use Rattle.vec_base.specs.declared.shadow.Change.TheVariants.{Put};
ghost use Rattle.shadow_keeper.specs.Keeping.{tables_of};
ghost use Rattle.shadow_keeper.specs.Memory.{memory_ended, memory_tables};
ghost use Rattle.keeper_tests.specs.Batches.{first_key, all_kinds, later_changes, three_records};

use crate::records::{FIRST, SECOND, THIRD, holds, is_end, three};
use shadow_keeper::{Batch, Keeper, Kept, MemoryKeeper};
use std::alloc::Global;
use std::test::Fail;
use vec_base::{Bytes, Change, List, Memory};

/// One record is put.
fn one_put(alloc: Global) -> Result<Batch, Memory>
    ensures { IfOk result (λ batch. batch.changes ≡ Put first_key (5 ∷ []) ∷ []) }
{
    let mut changes = List::new(alloc);
    changes.push(Change::Put(FIRST, Bytes::from_slice(alloc, &[5])?))?;
    Ok(Batch { changes })
}

/// Changes of each kind.
fn of_all_kinds(alloc: Global) -> Result<Batch, Memory>
    ensures { IfOk result (λ batch. batch.changes ≡ all_kinds) }
{
    let mut changes = List::new(alloc);
    changes.push(Change::Put(FIRST, Bytes::from_slice(alloc, &[1, 2, 3, 4])?))?;
    changes.push(Change::Fill(SECOND, 2))?;
    changes.push(Change::Patch(FIRST, 1, Bytes::from_slice(alloc, &[9, 8])?))?;
    changes.push(Change::Put(THIRD, Bytes::from_slice(alloc, &[7])?))?;
    changes.push(Change::Remove(THIRD))?;
    Ok(Batch { changes })
}

/// One of three records is patched, and one goes.
fn of_three(alloc: Global) -> Result<Batch, Memory>
    ensures { IfOk result (λ batch. batch.changes ≡ later_changes) }
{
    let mut changes = List::new(alloc);
    changes.push(Change::Patch(SECOND, 0, Bytes::from_slice(alloc, &[5])?))?;
    changes.push(Change::Remove(FIRST))?;
    Ok(Batch { changes })
}

/// Commits changes of each kind.
fn commit_all_kinds(alloc: Global, keeper: &mut MemoryKeeper) -> Result<Kept, Memory>
    requires { IsTrue (memory_ended keeper.old) }
    ensures { memory_ended keeper.new ≡ memory_ended keeper.old }
{
    let batch = of_all_kinds(alloc)?;
    Ok(keeper.commit(&batch))
}

/// Commits changes of the three records.
fn commit_later(alloc: Global, keeper: &mut MemoryKeeper) -> Result<Kept, Memory>
    requires ended { IsTrue (memory_ended keeper.old) }
    requires tables { memory_tables keeper.old ≡ tables_of three_records }
{
    let batch = of_three(alloc)?;
    Ok(keeper.commit(&batch))
}

/// What a commit of one record answers, and whether the keeper holds it then.
fn one_kept(alloc: Global) -> Result<Option<(Kept, bool)>, Memory> {
    let mut keeper = MemoryKeeper::new(alloc, List::new(alloc), List::new(alloc))?;
    let batch = one_put(alloc)?;
    if !is_end(&mut keeper) {
        return Ok(None);
    }
    let kept = keeper.commit(&batch);
    Ok(Some((kept, holds(alloc, &keeper, &[(1, &[5])])?)))
}

/// What two commits of changes of each kind answer where the first fails, and whether the keeper holds none and then the changed records.
fn kept_again(alloc: Global) -> Result<Option<([Kept; 2], [bool; 2])>, Memory> {
    let mut fails = List::new(alloc);
    fails.push(2)?;
    let mut keeper = MemoryKeeper::new(alloc, List::new(alloc), fails)?;
    if !is_end(&mut keeper) {
        return Ok(None);
    }
    let failed = commit_all_kinds(alloc, &mut keeper)?;
    let untouched = holds(alloc, &keeper, &[])?;
    let done = commit_all_kinds(alloc, &mut keeper)?;
    let changed = holds(alloc, &keeper, &[(1, &[1, 9, 8, 4]), (2, &[0, 0])])?;
    Ok(Some(([failed, done], [untouched, changed])))
}

/// Reads three records and the end.
fn read_all(keeper: &mut MemoryKeeper) -> bool
    ensures ended { IsTrue result → IsTrue (memory_ended keeper.new) }
    ensures tables { memory_tables keeper.new ≡ memory_tables keeper.old }
{
    let _ = keeper.next_record();
    let _ = keeper.next_record();
    let _ = keeper.next_record();
    is_end(keeper)
}

/// What a commit over three records answers, and whether the keeper holds the changed ones then.
fn later_kept(alloc: Global) -> Result<Option<(Kept, bool)>, Memory> {
    let mut keeper = MemoryKeeper::new(alloc, three(alloc)?, List::new(alloc))?;
    if !read_all(&mut keeper) {
        return Ok(None);
    }
    let kept = commit_later(alloc, &mut keeper)?;
    Ok(Some((kept, holds(alloc, &keeper, &[(2, &[5, 3]), (3, &[])])?)))
}

#[test]
fn a_record_is_kept(rt: HostRuntime) -> Result<(), Fail> {
    assert_eq!(rt; one_kept(rt.alloc()), Ok(Some((Kept::Done, true))));
    Ok(())
}

#[test]
fn a_failed_batch_leaves_the_tables_and_can_come_again(rt: HostRuntime) -> Result<(), Fail> {
    assert_eq!(rt;
        kept_again(rt.alloc()),
        Ok(Some(([Kept::Failed, Kept::Done], [true, true])))
    );
    Ok(())
}

#[test]
fn given_records_are_patched_and_go(rt: HostRuntime) -> Result<(), Fail> {
    assert_eq!(rt; later_kept(rt.alloc()), Ok(Some((Kept::Done, true))));
    Ok(())
}
