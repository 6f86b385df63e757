//! Laws of the format, each of them the contract of a function that does nothing.
ghost use Rattle.std.specs.Prelude.{◌≡◌, ◌≢◌, ◌++◌, ◌∷◌, ◌<◌, List, ℕ, true, Some, Ok, length};
ghost use Rattle.std.specs.FinMap.{empty};
ghost use Rattle.std.specs.List.{flat_map};
ghost use Rattle.vec_base.specs.Representable.{AreBytes};
ghost use Rattle.vec_base.specs.declared.shadow.Change.{Change};
ghost use Rattle.shadow_records.specs.Batches.{AllApply};
ghost use Rattle.shadow_records.specs.Keys.{Tables};
ghost use Rattle.journal_format.specs.Fields.{changes_of};
ghost use Rattle.journal_format.specs.Fitting.{all_apply};
ghost use Rattle.journal_format.specs.Format.{header, change_bytes, blocks, AreWhole};
ghost use Rattle.journal_format.specs.Fronts.{AreCommits};
ghost use Rattle.journal_format.specs.Reading.{commits_of};

/// The test whether changes apply is true exactly where they apply.
pub fn the_test_is_exact()
    ensures sound { (changes : List Change) (tables : Tables) → all_apply changes tables ≡ true → AllApply changes tables }
    ensures complete { (changes : List Change) (tables : Tables) → AllApply changes tables → all_apply changes tables ≡ true }
{}

/// The header, blocks of batches and a closed gate give these batches, whatever stands behind the gate.
pub fn blocks_are_read()
    ensures { (batches : List (List Change)) (gate : ℕ) (rest : List ℕ) → AreCommits 1 empty batches → gate ≢ 1
        → commits_of (header ++ (blocks 1 batches ++ gate ∷ rest)) ≡ Ok batches }
{}

/// A file of more than 17 bytes that gives batches is the header, their blocks, a closed gate, and any bytes behind it.
pub fn files_are_blocks()
    ensures { (file : List ℕ) (batches : List (List Change)) → AreBytes file → 17 < length file → commits_of file ≡ Ok batches
        → (gate : ℕ) × (rest : List ℕ) × (gate ≢ 1) × (file ≡ header ++ (blocks 1 batches ++ gate ∷ rest)) × AreCommits 1 empty batches }
{}

/// The bytes of changes give these changes, and bytes that give changes are theirs.
pub fn changes_are_read()
    ensures again { (changes : List Change) → AreWhole changes → changes_of (flat_map change_bytes changes) ≡ Some changes }
    ensures only { (bytes : List ℕ) (changes : List Change) → AreBytes bytes → changes_of bytes ≡ Some changes
        → (bytes ≡ flat_map change_bytes changes) × AreWhole changes }
{}
