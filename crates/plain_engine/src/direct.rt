//! Statements that the engine takes.
ghost use Rattle.std.specs.Prelude.{◌≡◌};
ghost use Rattle.plain_engine.specs.DirectStatements.{is_direct};

use row_model::Statement;

/// Whether a statement needs no transaction and no plan: CREATE, DROP, INSERT, UPDATE, DELETE and SELECT.
pub fn is_direct(statement: &Statement) -> bool
    ensures { result ≡ is_direct statement.now }
{
    matches!(
        statement,
        Statement::Create(_, _)
            | Statement::Drop(_)
            | Statement::Insert(_)
            | Statement::Update(_)
            | Statement::Delete(_)
            | Statement::Select(_)
    )
}
