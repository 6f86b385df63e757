//! Why a field is not read.

ghost use Rattle.std.specs.Prelude.{◌≡◌};
ghost use Rattle.csv_fields.specs.declared.fault.FieldFault.TheVariants.{Memory as WantOfMemory};

use vec_base::Memory;
use vec_literal::LitFault;

/// Why a field is not read.
#[derive(Clone, Copy, Debug, PartialEq, Eq)]
pub enum FieldFault {
    /// The field stands for no value of its column.
    Form,
    /// There was not enough memory.
    Memory,
}

impl From<Memory> for FieldFault {
    ghost from_gives = { λ _ e. e ≡ WantOfMemory };

    fn from(_: Memory) -> Self {
        FieldFault::Memory
    }
}

impl From<LitFault> for FieldFault {
    ghost use Rattle.csv_fields.specs.Faults.{fault_of};

    ghost from_gives = { λ fault e. e ≡ fault_of fault };

    fn from(fault: LitFault) -> Self {
        match fault {
            LitFault::Place(_) => FieldFault::Form,
            LitFault::Range(_) => FieldFault::Form,
            LitFault::OddHex => FieldFault::Form,
            LitFault::Memory => FieldFault::Memory,
        }
    }
}
