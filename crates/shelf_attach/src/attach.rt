//! All tables, from all records.
ghost use Rattle.std.specs.Prelude.{◌≡◌, ℕ, ◌≤◌, true, length, take, drop, IfErr, IfOk, Some};
ghost use Rattle.std.specs.FinMap.{is_sorted};
ghost use Rattle.shadow_keeper.specs.Keeping.{tables_of};
ghost use Rattle.shadow_records.specs.Keys.{key_cmp};
ghost use Rattle.shadow_records.specs.StandsFor.{IsDamaged, StandsFor};
ghost use Rattle.version_shelf.specs.Numbers.{catalog_of};
ghost use Rattle.version_shelf.specs.OnShelf.{OnShelf, shown};
ghost use Rattle.version_shelf.specs.Records.{HoldsRecords};
ghost use Rattle.shelf_attach.specs.declared.fault.ShelfFault.TheVariants.{Damaged};
ghost use Rattle.shelf_attach.specs.inner.Grouping.{AllUnder, BeginsElsewhere};

use crate::ShelfFault;
use crate::built::{add, no_tables};
use std::alloc::Global;
use vec_base::{Bytes, List, ShadowKey};
use version_shelf::{Held, Shelf};

/// A shelf, and the catalog of all its tables.
#[derive(Drop)]
pub struct Attached {
    pub shelf: Shelf,
    pub held: Held,
}

/// How many of the first records have the table number.
fn group_len(records: &[(ShadowKey, Bytes)], number: u32) -> usize
    ensures within { result ≤ length records.now }
    ensures group { AllUnder (λ of. of ≡ number) (take result records.now) }
    ensures behind { BeginsElsewhere number (drop result records.now) }
{
    for (at, kept) in records.iter().enumerate() {
        if kept.0.table != number {
            return at;
        }
    }
    records.len()
}

/// The tables whose records these are, by rising keys, each under its number.
///
/// Errors: `Damaged(t)` exactly where t is the least number such that the records with table numbers up to t stand for no catalog; `Memory`.
pub fn attach_all(alloc: Global, records: &List<(ShadowKey, Bytes)>) -> Result<Attached, ShelfFault>
    requires sorted { is_sorted key_cmp records.now ≡ true }
    ensures on { IfOk result (λ all. OnShelf all.shelf all.held.places) }
    ensures stands { IfOk result (λ all. StandsFor (tables_of records.now) (catalog_of (shown all.shelf all.held.places))) }
    ensures holds { IfOk result (λ all. HoldsRecords (tables_of records.now) (shown all.shelf all.held.places)) }
    ensures damaged { IfErr result (λ fault. (number : ℕ) → fault ≡ Damaged number → IsDamaged (tables_of records.now) (Some number)) }
{
    let mut built = no_tables(alloc);
    let mut rest = records.as_slice();
    while let Some((first, _)) = rest.split_first() {
        let number = first.0.table;
        let (group, behind) = rest.split_at(group_len(rest, number));
        match add(alloc, &mut built, number, group) {
            Ok(()) => rest = behind,
            Err(fault) => return Err(fault),
        }
    }
    Ok(Attached {
        shelf: built.shelf,
        held: built.held,
    })
}
