//! What a table is called and made of, and its top, from their records.
ghost use Rattle.std.specs.Prelude.{◌≡◌, None, IfOk, IfErr, IfSome};
ghost use Rattle.row_model.specs.CanonicalColumns.{canonical_columns};
ghost use Rattle.row_model.specs.Schemas.{IsValidSchema};
ghost use Rattle.row_model.specs.declared.schema.Schema.{Schema as Declared};
ghost use Rattle.table_attach.specs.declared.fault.AttachFault.TheVariants.{Damaged};
ghost use Rattle.table_attach.specs.inner.Info.{IsInfo, IsNoInfo, IsNoTop, IsTop};

use crate::AttachFault;
use crate::name::read_name;
use row_model::Schema;
use std::alloc::Global;
use vec_base::{Refusal, Txt};
use vec0_columns::read_columns;

/// What a table is called and made of.
#[derive(Drop)]
pub(crate) struct Info {
    pub(crate) name: Txt,
    pub(crate) schema: Schema,
}

/// The schema whose canonical text this is, if it is one.
fn read_schema(alloc: Global, text: &[u8]) -> Result<Schema, AttachFault>
    ensures valid { IfOk result (λ schema. IsValidSchema schema) }
    ensures only { IfOk result (λ schema. (other : Declared) → IsValidSchema other → canonical_columns other ≡ text.now → schema ≡ other) }
    ensures none { IfErr result (λ fault. fault ≡ Damaged → (other : Declared) → IsValidSchema other → canonical_columns other ≡ text.now → ⊥) }
{
    match read_columns(alloc, text) {
        Ok(schema) => Ok(schema),
        Err(Refusal::WantOfMemory) => Err(AttachFault::Memory),
        Err(_) => Err(AttachFault::Damaged),
    }
}

/// The name behind its length in one byte, and the schema whose text stands behind the name.
pub(crate) fn read_info(alloc: Global, body: &[u8]) -> Result<Info, AttachFault>
    ensures info { IfOk result (λ info. IsInfo body.now info.name info.schema) }
    ensures none { IfErr result (λ fault. fault ≡ Damaged → IsNoInfo body.now) }
{
    let Some((length, rest)) = body.split_first() else {
        return Err(AttachFault::Damaged);
    };
    let length = usize::from(*length);
    if rest.len() < length {
        return Err(AttachFault::Damaged);
    }
    let name = read_name(alloc, &rest[..length])?;
    let schema = read_schema(alloc, &rest[length..])?;
    Ok(Info { name, schema })
}

/// The top in eight bytes.
pub(crate) fn read_top(body: &[u8]) -> Option<i64>
    ensures top { IfSome result (λ top. IsTop body.now top) }
    ensures none { result ≡ None → IsNoTop body.now }
{
    let [a, b, c, d, e, f, g, h] = body else {
        return None;
    };
    let top = i64::from_le_bytes([*a, *b, *c, *d, *e, *f, *g, *h]);
    if top < 0 {
        return None;
    }
    Some(top)
}
