//! Tables that are built one after another, by rising numbers.
ghost use Rattle.std.specs.Prelude.{◌≡◌, ℕ, ◌≤◌, true, false, [], None, replicate, IfErr, IfOk, OnOk};
ghost use Rattle.std.specs.FinMap.{is_sorted};
ghost use Rattle.shadow_records.specs.Keys.{key_cmp};
ghost use Rattle.vec_base.specs.declared.limits.TheConstants.{MOST_TABLES};
ghost use Rattle.shelf_attach.specs.declared.fault.ShelfFault.TheVariants.{Damaged};
ghost use Rattle.shelf_attach.specs.inner.Building.{Adds, HasRoom, IsCounted, IsNext, IsRefused, Puts, tables_in};

use crate::ShelfFault;
use std::alloc::Global;
use table_attach::{AttachFault, attach_slice};
use table_version::TableVersion;
use vec_base::{Bytes, MOST_SIDE_BYTES, MOST_TABLES, MOST_VECTOR_BYTES, Memory, ShadowKey};
use version_shelf::{Held, Shelf};

/// Tables on a shelf, and the bytes of all their rows.
#[derive(Drop)]
pub(crate) struct Built {
    pub(crate) shelf: Shelf,
    pub(crate) held: Held,
    vectors: u64,
    sides: u64,
}

/// No tables.
pub(crate) fn no_tables(alloc: Global) -> Built
    ensures shelf { result.shelf ≡ [] }
    ensures held { result.held.places ≡ replicate MOST_TABLES None }
    ensures vectors { result.vectors ≡ 0 }
    ensures sides { result.sides ≡ 0 }
{
    Built {
        shelf: Shelf::new(alloc),
        held: Held::none(),
        vectors: 0,
        sides: 0,
    }
}

/// Whether the name and the bytes of a table let it stand beside the others.
fn has_room(built: &Built, table: &TableVersion) -> bool
    requires { IsCounted built.now }
    ensures room { result ≡ true → HasRoom (tables_in built.now) table.now.table }
    ensures none { result ≡ false → HasRoom (tables_in built.now) table.now.table → ⊥ }
{
    if built.shelf.number(&built.held, table.name()).is_some() {
        return false;
    }
    if table.vector_bytes() > MOST_VECTOR_BYTES - built.vectors {
        return false;
    }
    table.side_bytes() <= MOST_SIDE_BYTES - built.sides
}

/// The table under the number whose records these are, where it may stand beside the others.
fn next_table(
    alloc: Global,
    built: &Built,
    number: u32,
    records: &[(ShadowKey, Bytes)],
) -> Result<TableVersion, ShelfFault>
    requires counted { IsCounted built.now }
    requires sorted { is_sorted key_cmp records.now ≡ true }
    ensures next { IfOk result (λ version. IsNext (tables_in built.now) number records.now version.table) }
    ensures damaged { IfErr result (λ fault. (of : ℕ) → fault ≡ Damaged of → (of ≡ number) × IsRefused (tables_in built.now) number records.now) }
{
    if number < 1 {
        return Err(ShelfFault::Damaged(number));
    }
    if number > MOST_TABLES {
        return Err(ShelfFault::Damaged(number));
    }
    let table = match attach_slice(alloc, number, records) {
        Ok(table) => table,
        Err(AttachFault::Damaged) => return Err(ShelfFault::Damaged(number)),
        Err(AttachFault::Memory) => return Err(ShelfFault::Memory),
    };
    table.known();
    if !has_room(built, &table) {
        return Err(ShelfFault::Damaged(number));
    }
    Ok(table)
}

/// Puts a table under a number.
fn put(built: &mut Built, number: u32, table: TableVersion) -> Result<(), Memory>
    requires counted { IsCounted built.old }
    requires low { 1 ≤ number }
    requires high { number ≤ MOST_TABLES }
    requires room { HasRoom (tables_in built.old) table.table }
    ensures { OnOk result (Puts built.old number table built.new) }
{
    let vectors = built.vectors + table.vector_bytes();
    let sides = built.sides + table.side_bytes();
    built.held = built.shelf.put_from(&built.held, number, table, None)?;
    built.vectors = vectors;
    built.sides = sides;
    Ok(())
}

/// Adds the table under the number whose records these are.
pub(crate) fn add(
    alloc: Global,
    built: &mut Built,
    number: u32,
    records: &[(ShadowKey, Bytes)],
) -> Result<(), ShelfFault>
    requires counted { IsCounted built.old }
    requires sorted { is_sorted key_cmp records.now ≡ true }
    ensures added { OnOk result (Adds built.old number records.now built.new) }
    ensures damaged { IfErr result (λ fault. (of : ℕ) → fault ≡ Damaged of → (of ≡ number) × IsRefused (tables_in built.old) number records.now) }
{
    let table = match next_table(alloc, built, number, records) {
        Ok(table) => table,
        Err(fault) => return Err(fault),
    };
    match put(built, number, table) {
        Ok(()) => Ok(()),
        Err(Memory) => Err(ShelfFault::Memory),
    }
}
