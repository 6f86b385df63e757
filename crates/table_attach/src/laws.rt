//! What holds of all kept records.
ghost use Rattle.std.specs.Prelude.{◌≡◌};
ghost use Rattle.row_model.specs.declared.row.Catalog.{Catalog};
ghost use Rattle.shadow_records.specs.Keys.{Tables};
ghost use Rattle.shadow_records.specs.StandsFor.{StandsFor};

/// Kept records stand for at most one catalog. The call does nothing: its clause is all that it gives.
pub fn one_catalog()
    ensures { (tables : Tables) (one other : Catalog) → StandsFor tables one → StandsFor tables other → one ≡ other }
{}
