//! Laws of the definitions, each as the contract of a call that does nothing.
ghost use Rattle.std.specs.Prelude.{◌≡◌, ℕ, List as Seq};
ghost use Rattle.vec_base.specs.declared.refusal.Refusal.{Refusal as Reason};
ghost use Rattle.vec_base.specs.declared.value.Value.{Value as Parameter};
ghost use Rattle.row_model.specs.declared.statement.Statement.{Statement as Meant};
ghost use Rattle.sql_reader.specs.StatementReading.{IsRefusal, SpellsStatement};

/// No text spells two statements with the same parameters.
pub fn one_statement()
    ensures { (text : Seq ℕ) (params : Seq Parameter) (one other : Meant) → SpellsStatement text params one → SpellsStatement text params other → one ≡ other }
{}

/// No text has two refusals with the same parameters, and none that spells a statement has one.
pub fn one_refusal()
    ensures one { (text : Seq ℕ) (params : Seq Parameter) (one other : Reason) → IsRefusal text params one → IsRefusal text params other → one ≡ other }
    ensures none { (text : Seq ℕ) (params : Seq Parameter) (statement : Meant) (refusal : Reason) → SpellsStatement text params statement → IsRefusal text params refusal → ⊥ }
{}
