//! A table without rows, from the records of its name, columns and top.
ghost use Rattle.std.specs.Prelude.{◌≡◌, ℤ, pos, true, IfOk, IfErr};
ghost use Rattle.std.specs.FinMap.{is_sorted};
ghost use Rattle.shadow_records.specs.Keys.{key_cmp, key_of};
ghost use Rattle.shadow_records.specs.declared.kinds.TheConstants.{INFO_RECORDS};
ghost use Rattle.table_attach.specs.Attaching.{StandForNone};
ghost use Rattle.table_attach.specs.declared.fault.AttachFault.TheVariants.{Damaged};
ghost use Rattle.table_attach.specs.inner.Filling.{IsOpened};

use crate::AttachFault;
use crate::info::{read_info, read_top};
use record_bodies::body;
use shadow_records::INFO_RECORDS;
use std::alloc::Global;
use table_version::TableVersion;
use vec_base::{Bytes, ShadowKey};

/// The key of what a table is called and made of, at 0, or of its top, at 1.
fn info_key(number: u32, a: i64) -> ShadowKey
    ensures { result ≡ key_of number INFO_RECORDS a (pos 0) }
{
    ShadowKey {
        table: number,
        kind: INFO_RECORDS,
        a,
        b: 0,
    }
}

/// The table without its rows.
pub(crate) fn open(
    alloc: Global,
    number: u32,
    records: &[(ShadowKey, Bytes)],
) -> Result<TableVersion, AttachFault>
    requires sorted { is_sorted key_cmp records.now ≡ true }
    ensures opened { IfOk result (λ table. IsOpened number records.now table.table) }
    ensures damaged { IfErr result (λ fault. fault ≡ Damaged → StandForNone number records.now) }
{
    let Some(info) = body(records, &info_key(number, 0)) else {
        return Err(AttachFault::Damaged);
    };
    let Some(top) = body(records, &info_key(number, 1)) else {
        return Err(AttachFault::Damaged);
    };
    let Some(top) = read_top(top.as_slice()) else {
        return Err(AttachFault::Damaged);
    };
    let info = read_info(alloc, info.as_slice())?;
    match TableVersion::with_top(alloc, info.name, info.schema, top) {
        Ok(table) => Ok(table),
        Err(_) => Err(AttachFault::Memory),
    }
}
