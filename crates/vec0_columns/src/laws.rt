//! Laws of the definitions, each as the contract of a call that does nothing.
ghost use Rattle.std.specs.Prelude.{◌≡◌, ℕ, List};
ghost use Rattle.vec_base.specs.declared.refusal.Refusal.{Refusal as Reason};
ghost use Rattle.row_model.specs.declared.schema.Schema.{Schema as Declared};
ghost use Rattle.vec0_columns.specs.ColumnReading.{Declares, IsRefusal};

/// No text declares two schemas.
pub fn one_schema()
    ensures { (text : List ℕ) (one other : Declared) → Declares text one → Declares text other → one ≡ other }
{}

/// No text has two refusals, and none that declares a schema has one.
pub fn one_refusal()
    ensures one { (text : List ℕ) (one other : Reason) → IsRefusal text one → IsRefusal text other → one ≡ other }
    ensures none { (text : List ℕ) (schema : Declared) (refusal : Reason) → Declares text schema → IsRefusal text refusal → ⊥ }
{}
