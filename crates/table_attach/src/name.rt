//! Names that stand in records.
ghost use Rattle.std.specs.Prelude.{◌≡◌, true, false, IfOk, IfErr};
ghost use Rattle.vec_base.specs.Words.{is_name};
ghost use Rattle.table_attach.specs.declared.fault.AttachFault.TheVariants.{Damaged};

use crate::AttachFault;
use grammar::{Reader, Stop};
use std::alloc::Global;
use vec_base::Txt;

/// The name that the bytes are.
pub(crate) fn read_name(alloc: Global, bytes: &[u8]) -> Result<Txt, AttachFault>
    ensures bytes { IfOk result (λ name. name ≡ bytes.now) }
    ensures name { IfOk result (λ name. is_name name ≡ true) }
    ensures none { IfErr result (λ fault. fault ≡ Damaged → is_name bytes.now ≡ false) }
{
    match Reader::new(alloc, bytes, 0).name() {
        Ok(name) => {
            if name.as_text().as_bytes() == bytes {
                Ok(name)
            } else {
                Err(AttachFault::Damaged)
            }
        }
        Err(Stop::Here) => Err(AttachFault::Damaged),
        Err(Stop::Memory) => Err(AttachFault::Memory),
    }
}
