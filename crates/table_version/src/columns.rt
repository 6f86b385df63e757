//! What columns say of the vectors and of the cells of a row.
ghost use Rattle.std.specs.Prelude.{◌≡◌, ◌++◌, ◌<◌, ◌^◌, IfOk, OnOk};
ghost use Rattle.row_chunks.specs.Cells.{kinds_of};
ghost use Rattle.table_version.specs.Kept.{vector_width, widths_of};
ghost use Rattle.table_version.specs.inner.StoredBytes.{total_width};

use row_chunks::is_cell;
use row_model::{Column, Kind};
use std::alloc::Global;
use vec_base::{List, Memory};

/// The bytes of a vector of a column, if it is one of vectors.
fn vector_width(kind: Kind) -> Option<u16>
    ensures { result ≡ vector_width kind }
{
    match kind {
        Kind::Int8Vector(width, _) => Some(width),
        Kind::BitVector(width) => Some(width / 8),
        _ => None,
    }
}

/// Adds the bytes of a vector of each vector column.
fn add_widths(columns: &[Column], widths: &mut List<u16>) -> Result<(), Memory>
    ensures { OnOk result (widths.new ≡ widths.old ++ widths_of columns.now) }
{
    let Some((column, columns)) = columns.split_first() else {
        return Ok(());
    };
    if let Some(width) = vector_width(column.kind) {
        widths.push(width)?;
    }
    add_widths(columns, widths)
}

/// The bytes of a vector of each vector column.
pub(crate) fn widths_of(alloc: Global, columns: &[Column]) -> Result<List<u16>, Memory>
    ensures { IfOk result (λ widths. widths ≡ widths_of columns.now) }
{
    let mut widths = List::new(alloc);
    add_widths(columns, &mut widths)?;
    Ok(widths)
}

/// Adds the kind of each column that has cells.
fn add_kinds(columns: &[Column], kinds: &mut List<Kind>) -> Result<(), Memory>
    ensures { OnOk result (kinds.new ≡ kinds.old ++ kinds_of columns.now) }
{
    let Some((column, columns)) = columns.split_first() else {
        return Ok(());
    };
    if is_cell(column.kind) {
        kinds.push(column.kind)?;
    }
    add_kinds(columns, kinds)
}

/// The kinds of the columns that have cells.
pub(crate) fn kinds_of(alloc: Global, columns: &[Column]) -> Result<List<Kind>, Memory>
    ensures { IfOk result (λ kinds. kinds ≡ kinds_of columns.now) }
{
    let mut kinds = List::new(alloc);
    add_kinds(columns, &mut kinds)?;
    Ok(kinds)
}

/// The bytes of the vectors of a row.
#[tactic(auto, using(crate::proofs::VectorBytes::width_step))]
pub(crate) fn row_bytes(columns: &[Column]) -> u64
    requires { total_width (widths_of columns.now) < 2 ^ 64 }
    ensures { result ≡ total_width (widths_of columns.now) }
{
    let Some((column, columns)) = columns.split_first() else {
        return 0;
    };
    let width = vector_width(column.kind).unwrap_or(0);
    u64::from(width) + row_bytes(columns)
}
