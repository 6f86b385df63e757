//! A column of texts.
ghost use Rattle.std.specs.Prelude.{◌≡◌, ◌<◌, ◌≤◌, ◌%◌, ◌^◌, [], length, replicate, slice_index_or, slice_set, IfOk, is_ok, if◌then◌else◌};
ghost use Rattle.std.specs.List.{list_any};
ghost use Rattle.vec_base.specs.Comparison.{satisfies};
ghost use Rattle.vec_base.specs.declared.value.Op.TheVariants.{Eq};
ghost use Rattle.vec_base.specs.declared.value.Value.TheVariants.{Text};
ghost use Rattle.shadow_records.specs.Cells.{laid, text_view};
ghost use Rattle.metadata_chunks.specs.Columns.{kept};

use crate::cells::{Test, filled, keep_passing};
use crate::text_cell::{Probe, TextCell};
use chunk_bitmap::Bitmap;
use shared_leaves::{Copied, Leaves};
use std::alloc::Global;
use std::marker::Model;
use vec_base::{Bytes, List, MOST_CHUNK_SIZE, Memory, Op, Value};

/// A text for each slot.
#[derive(Drop)]
pub struct TextColumn {
    cells: Leaves<TextCell>,
}

impl Model for TextColumn {
    ghost use Rattle.std.specs.Prelude.{◌≤◌, ℕ, List, length};
    ghost use Rattle.vec_base.specs.declared.limits.TheConstants.{MOST_CHUNK_SIZE};

    ghost Value = { List (List ℕ) };

    ghost view = { λ column. column.cells };

    ghost invariant = { λ column. length column.cells ≤ MOST_CHUNK_SIZE };
}

/// How a text stands to a constant.
#[derive(Drop)]
struct Compared<'a> {
    op: Op,
    constant: Probe<'a>,
}

impl Test<TextCell> for Compared<'_> {
    ghost use Rattle.vec_base.specs.Comparison.{satisfies};
    ghost use Rattle.vec_base.specs.declared.value.Value.TheVariants.{Text};

    ghost passed = { λ test text. satisfies test.op (Text text) (Text test.constant) };

    #[inline]
    fn passes(&self, text: &TextCell) -> bool {
        self.op.holds(text.compared(&self.constant))
    }
}

/// Whether a text is one of some values.
#[derive(Drop)]
struct Member<'a> {
    values: &'a [Value],
}

/// Whether a value is the text.
fn is_text(value: &Value, text: &TextCell) -> bool
    ensures { result ≡ satisfies Eq (Text text.now) value.now }
{
    match value {
        Value::Text(other) => text.compared(&Probe::of(other.as_text())).is_eq(),
        _ => false,
    }
}

impl Test<TextCell> for Member<'_> {
    ghost use Rattle.std.specs.List.{list_any};
    ghost use Rattle.vec_base.specs.Comparison.{satisfies};
    ghost use Rattle.vec_base.specs.declared.value.Op.TheVariants.{Eq};
    ghost use Rattle.vec_base.specs.declared.value.Value.TheVariants.{Text};

    ghost passed = { λ test text. list_any (satisfies Eq (Text text)) test.values.now };

    fn passes(&self, text: &TextCell) -> bool {
        self.values.iter().any(|value| is_text(value, text))
    }
}

impl TextColumn {
    /// All texts are empty.
    pub fn with_size(alloc: Global, size: u16) -> Result<TextColumn, Memory>
        requires eights { size % 8 ≡ 0 }
        requires short { size ≤ MOST_CHUNK_SIZE }
        ensures { IfOk result (λ column. column ≡ replicate size []) }
    {
        let empty = TextCell::of(alloc, "")?;
        Ok(TextColumn {
            cells: filled(alloc, size, &empty)?,
        })
    }

    /// The text of a slot.
    #[inline]
    pub fn get(&self, slot: u16) -> &str
        requires { slot < length self.now }
        ensures { result.now ≡ slice_index_or self.now slot [] }
    {
        self.cells.get(usize::from(slot)).as_text()
    }

    /// Puts another text for a slot. After want of memory the column is as before.
    pub fn put(&mut self, alloc: Global, slot: u16, text: &str) -> Result<(), Memory>
        requires slot { slot < length self.old }
        requires short { length text.now < 2 ^ 32 }
        ensures { self.new ≡ (if is_ok result then slice_set self.old slot text.now else self.old) }
    {
        let cell = TextCell::of(alloc, text)?;
        self.cells.set(usize::from(slot), cell)?;
        Ok(())
    }

    /// Clears the bits of the slots whose texts do not stand to the constant as the operator says.
    pub fn filter(&self, op: Op, constant: &str, keep: &mut Bitmap)
        requires { length keep.old ≡ length self.now }
        ensures { keep.new ≡ kept (λ text. satisfies op (Text text) (Text constant.now)) self.now keep.old }
    {
        let test = Compared {
            op,
            constant: Probe::of(constant),
        };
        keep_passing(&self.cells, &test, keep);
    }

    /// Clears the bits of the slots whose texts are none of the values.
    pub fn filter_member(&self, values: &List<Value>, keep: &mut Bitmap)
        requires { length keep.old ≡ length self.now }
        ensures { keep.new ≡ kept (λ text. list_any (satisfies Eq (Text text)) values.now) self.now keep.old }
    {
        let test = Member {
            values: values.as_slice(),
        };
        keep_passing(&self.cells, &test, keep);
    }

    /// An equal column. A later change of one leaves the other.
    pub fn share(&self) -> Result<TextColumn, Memory>
        ensures { IfOk result (λ column. column ≡ self.now) }
    {
        Ok(TextColumn {
            cells: self.cells.share()?,
        })
    }

    /// For each text its length in four bytes and its first bytes, filled up with zeros.
    pub fn cells(&self, alloc: Global) -> Result<Bytes, Memory>
        ensures { IfOk result (λ bytes. bytes ≡ laid (λ slot. text_view (slice_index_or self.now slot [])) (length self.now)) }
    {
        let mut bytes = Bytes::new(alloc);
        for slot in 0..self.cells.len() {
            self.cells.get(slot).put_to(&mut bytes)?;
        }
        Ok(bytes)
    }
}

impl Copied for TextColumn {
    fn copied(&self, _alloc: Global) -> Result<TextColumn, Memory> {
        self.share()
    }
}
