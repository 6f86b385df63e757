//! New rows, and what refuses them.
ghost use Rattle.std.specs.Prelude.{◌≡◌, ◌⊎◌, ℕ, ◌+◌, ◌-◌, ◌<◌, ◌^◌, ℤ, true, false, List as Seq, [], length, map, sum_by, IfOk, IfErr, OnOk, OnErr, OnSome, Some, None, is_some};
ghost use Rattle.std.specs.Option.{option_copied};
ghost use Rattle.vec_base.specs.declared.refusal.Refusal.TheVariants.{WantOfMemory, Duplicate};
ghost use Rattle.row_model.specs.Change.{assigned, larger, spent, taken_id, taken_rowid};
ghost use Rattle.row_model.specs.ColumnNames.{has_text_key};
ghost use Rattle.row_model.specs.RefusalOrder.{first, when};
ghost use Rattle.row_model.specs.Values.{side_bytes};
ghost use Rattle.chunk_slots.specs.Slots.{vectors_of};
ghost use Rattle.row_chunks.specs.Cells.{are_cell_values, cells_of, kinds_of};
ghost use Rattle.row_store.specs.StoredRows.{row_of, row_with_id};
ghost use Rattle.row_store.specs.Touches.{HasSameShape, IsPut, KeepsOrigin as KeepsStored};
ghost use Rattle.shadow_records.specs.PlacedTables.{partition_of, plain, plain_rows};
ghost use Rattle.table_version.specs.Inserting.{are_fitting, insert_refusals, new_row, IsInserted};
ghost use Rattle.table_version.specs.Kept.{id_in};
ghost use Rattle.table_version.specs.Versions.{KeepsOrigin};
ghost use Rattle.table_version.specs.inner.Refusing.{first_of, given_taken, taken_text};

use crate::TableVersion;
use crate::given::{all_side_bytes, list_representable, partition_values, text_id};
use row_model::{Column, assigned, larger, over_rows, spent};
use row_store::RowStore;
use std::alloc::Global;
use vec_base::{List, Memory, Refusal, Value};

/// The refusal of a given rowid that is there.
#[tactic(auto, using(crate::proofs::InsertLaws::shown_some))]
fn taken_rowid(rows: &RowStore, rowid: &Option<i64>) -> Option<Refusal>
    ensures { result ≡ first (given_taken rowid.now rows.now.rows) }
{
    match rowid {
        Some(rowid) => {
            if rows.row(rowid).is_some() {
                Some(Refusal::Duplicate(*rowid))
            } else {
                None
            }
        }
        None => None,
    }
}

/// The refusal of a text id that is there.
fn taken_text(rows: &RowStore, id: Option<&str>) -> Option<Refusal>
    ensures { result ≡ first (taken_text (option_copied id.entry) rows.now.rows) }
{
    match id {
        Some(id) => match rows.rowid_of(id) {
            Some(rowid) => Some(Refusal::Duplicate(rowid)),
            None => None,
        },
        None => None,
    }
}

/// The first of what refuses values beside some rows.
fn first_refusal(
    rows: &RowStore,
    columns: &List<Column>,
    top: &i64,
    rowid: &Option<i64>,
    values: &List<Value>,
) -> Option<Refusal>
    requires { length rows.now.rows + 1 < 2 ^ 64 }
    ensures { result ≡ first_of rows.now.rows (id_in columns.now values.now) top.now rowid.now }
{
    let id = text_id(columns.as_slice(), values.as_slice());
    taken_rowid(rows, rowid)
        .or(taken_text(rows, id))
        .or(spent(top, rowid))
        .or(over_rows(rows.len() + 1))
}

/// A row with these values takes its place. Answers the bytes of its texts and blobs. After want of memory the rows are as before.
fn put_values(
    rows: &mut RowStore,
    alloc: Global,
    columns: &List<Column>,
    rowid: &i64,
    values: &List<Value>,
) -> Result<u64, Memory>
    requires fresh { row_of rowid.now rows.old.rows ≡ None }
    requires own_id { (text : Seq ℕ) → id_in columns.now values.now ≡ Some text → row_with_id text rows.old.rows ≡ None }
    requires widths { map length (vectors_of values.now) ≡ rows.old.widths }
    requires kinds { kinds_of columns.now ≡ rows.old.kinds }
    requires cells { are_cell_values rows.old.kinds (cells_of columns.now values.now) ≡ true }
    requires few { length rows.old.rows < 2 ^ 64 - 1 }
    requires short { sum_by side_bytes values.now < 2 ^ 64 }
    ensures kept { OnErr result (rows.new.rows ≡ rows.old.rows) }
    ensures put { OnOk result (IsPut rows.old rows.new rowid.now (id_in columns.now values.now) (partition_of columns.now values.now) (vectors_of values.now) (cells_of columns.now values.now)) }
    ensures sides { IfOk result (λ bytes. bytes ≡ sum_by side_bytes values.now) }
    ensures shape { HasSameShape rows.old rows.new }
    ensures origin { KeepsStored rows.old rows.new }
{
    let id = text_id(columns.as_slice(), values.as_slice());
    let partition = partition_values(alloc, columns.as_slice(), values.as_slice())?;
    rows.put(
        alloc,
        rowid,
        id,
        &partition,
        columns.as_slice(),
        values.as_slice(),
    )?;
    Ok(all_side_bytes(values.as_slice()))
}

impl TableVersion {
    /// The first of what refuses values.
    fn refusal(&self, rowid: &Option<i64>, values: &List<Value>) -> Option<Refusal>
        requires { are_fitting self.now.table.schema.columns values.now ≡ true }
        ensures { result ≡ first (insert_refusals (plain self.now.table) rowid.now values.now) }
    {
        first_refusal(&self.rows, &self.schema.columns, &self.top, rowid, values)
    }

    /// The rowid of a new row: the one that is given, or the one above the top.
    fn made(&self, rowid: &Option<i64>) -> i64
        ensures { result ≡ assigned self.now.table.top rowid.now }
    {
        assigned(&self.top, rowid)
    }

    /// A row that nothing refuses takes its place, with the rowid that is made for it. After want of memory the table is as before.
    fn add(
        &mut self,
        alloc: Global,
        made: &i64,
        rowid: &Option<i64>,
        values: &List<Value>,
    ) -> Result<(), Memory>
        requires made { made.now ≡ assigned self.old.table.top rowid.now }
        requires fits { are_fitting self.old.table.schema.columns values.now ≡ true }
        requires none { insert_refusals (plain self.old.table) rowid.now values.now ≡ [] }
        ensures kept { OnErr result (self.new.table ≡ self.old.table) }
        ensures inserted { OnOk result (IsInserted self.old.table self.new.table (new_row (plain self.old.table) rowid.now values.now)) }
        ensures origin { KeepsOrigin self.old self.new }
    {
        list_representable(values);
        let _rowid = *made;
        let top = larger(&self.top, made);
        let bytes = put_values(&mut self.rows, alloc, &self.schema.columns, made, values)?;
        self.side_bytes += bytes;
        self.top = top;
        Ok(())
    }

    /// A row with these values takes its place, with the rowid that is given, or the one above the top. Answers its rowid,
    /// or the first of what refuses it. Where it is refused, or memory is wanted, the table is as before.
    #[tactic(auto, using(crate::proofs::PutLaws::none_refused))]
    pub fn insert(
        &mut self,
        alloc: Global,
        rowid: Option<i64>,
        values: &List<Value>,
    ) -> Result<i64, Refusal>
        requires { are_fitting self.old.table.schema.columns values.now ≡ true }
        ensures kept { OnErr result (self.new.table ≡ self.old.table) }
        ensures refused { IfErr result (λ refusal. (first (insert_refusals (plain self.old.table) rowid values.now) ≡ Some refusal) ⊎ (refusal ≡ WantOfMemory)) }
        ensures welcome { OnOk result (insert_refusals (plain self.old.table) rowid values.now ≡ []) }
        ensures inserted { OnOk result (IsInserted self.old.table self.new.table (new_row (plain self.old.table) rowid values.now)) }
        ensures rowid { IfOk result (λ made. made ≡ assigned self.old.table.top rowid) }
        ensures origin { KeepsOrigin self.old self.new }
    {
        if let Some(refusal) = self.refusal(&rowid, values) {
            return Err(refusal);
        }
        let made = self.made(&rowid);
        match self.add(alloc, &made, &rowid, values) {
            Ok(()) => Ok(made),
            Err(_) => Err(Refusal::WantOfMemory),
        }
    }
}
