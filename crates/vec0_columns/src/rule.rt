//! The rules of schemas.
ghost use Rattle.std.specs.Prelude.{◌≡◌};
ghost use Rattle.row_model.specs.Schemas.{is_key, is_vector, is_partition, is_metadata, is_auxiliary, count_of, has_some, has_column, has_twins, is_hidden_name, takes_hidden_name, is_eights, is_misfit_int8, is_misfit_bits, schema_fault};

use row_model::{Column, Kind, Role, Schema};
use vec_base::{
    MOST_AUXILIARY_COLUMNS, MOST_CHUNK_SIZE, MOST_DIMENSIONS, MOST_METADATA_COLUMNS,
    MOST_PARTITION_COLUMNS, MOST_VECTOR_COLUMNS,
};

/// The number of the least rule that the schema breaks, or `None` where it breaks none: 1 without a vector column; 2 to 5
/// with more than 16 vector, 4 partition, 16 metadata or 16 auxiliary columns; 6 with more than one key; 7 where two
/// columns have one name; 8 where one is named `rowid`, `distance` or `k`; 9 and 10 where a vector of bytes or of bits has
/// a size out of range; 12 where the chunk size is.
pub fn schema_rule(schema: &Schema) -> Option<u8>
    ensures { result ≡ schema_fault schema.now }
{
    let columns = schema.columns.as_slice();
    if count_vectors(columns) == 0 {
        Some(1)
    } else if count_vectors(columns) > MOST_VECTOR_COLUMNS {
        Some(2)
    } else if count_partitions(columns) > MOST_PARTITION_COLUMNS {
        Some(3)
    } else if count_metadata(columns) > MOST_METADATA_COLUMNS {
        Some(4)
    } else if count_auxiliaries(columns) > MOST_AUXILIARY_COLUMNS {
        Some(5)
    } else if count_keys(columns) > 1 {
        Some(6)
    } else if has_twins(columns) {
        Some(7)
    } else if takes_hidden_name(columns) {
        Some(8)
    } else if has_misfit_int8(columns) {
        Some(9)
    } else if has_misfit_bits(columns) {
        Some(10)
    } else if !is_eights(MOST_CHUNK_SIZE, schema.chunk_size) {
        Some(12)
    } else {
        None
    }
}

fn count_keys(columns: &[Column]) -> usize
    ensures { result ≡ count_of is_key columns.now }
{
    columns
        .iter()
        .filter(|column| column.kind.has_role(Role::Key))
        .count()
}

fn count_vectors(columns: &[Column]) -> usize
    ensures { result ≡ count_of is_vector columns.now }
{
    columns
        .iter()
        .filter(|column| column.kind.has_role(Role::Vector))
        .count()
}

fn count_partitions(columns: &[Column]) -> usize
    ensures { result ≡ count_of is_partition columns.now }
{
    columns
        .iter()
        .filter(|column| column.kind.has_role(Role::Partition))
        .count()
}

fn count_metadata(columns: &[Column]) -> usize
    ensures { result ≡ count_of is_metadata columns.now }
{
    columns
        .iter()
        .filter(|column| column.kind.has_role(Role::Metadata))
        .count()
}

fn count_auxiliaries(columns: &[Column]) -> usize
    ensures { result ≡ count_of is_auxiliary columns.now }
{
    columns
        .iter()
        .filter(|column| column.kind.has_role(Role::Auxiliary))
        .count()
}

/// Whether a column has the name.
fn has_column(name: &str, columns: &[Column]) -> bool
    ensures { result ≡ has_column name.now columns.now }
{
    columns.iter().any(|column| column.name.as_text() == name)
}

/// Whether two columns have one name.
fn has_twins(columns: &[Column]) -> bool
    ensures { result ≡ has_twins columns.now }
{
    let Some((first, others)) = columns.split_first() else {
        return false;
    };
    if has_column(first.name.as_text(), others) {
        return true;
    }
    has_twins(others)
}

/// Whether the name means something else in every table.
fn is_hidden_name(name: &str) -> bool
    ensures { result ≡ is_hidden_name name.now }
{
    matches!(name, "rowid" | "distance" | "k")
}

/// Whether a column has a name that means something else in every table.
fn takes_hidden_name(columns: &[Column]) -> bool
    ensures { result ≡ takes_hidden_name columns.now }
{
    columns
        .iter()
        .any(|column| is_hidden_name(column.name.as_text()))
}

/// Whether the number is a multiple of 8 from 8 up to the most.
fn is_eights(most: u16, number: u16) -> bool
    ensures { result ≡ is_eights most number }
{
    number % 8 == 0 && 8 <= number && number <= most
}

/// Whether the column holds vectors of bytes of a size that is out of range.
fn is_misfit_int8(kind: Kind) -> bool
    ensures { result ≡ is_misfit_int8 kind }
{
    match kind {
        Kind::Int8Vector(width, _) => !(1 <= width && width <= MOST_DIMENSIONS),
        _ => false,
    }
}

/// Whether the column holds vectors of bits of a size that is out of range.
fn is_misfit_bits(kind: Kind) -> bool
    ensures { result ≡ is_misfit_bits kind }
{
    match kind {
        Kind::BitVector(width) => !is_eights(MOST_DIMENSIONS, width),
        _ => false,
    }
}

/// Whether a column of vectors of bytes has a size that is out of range.
fn has_misfit_int8(columns: &[Column]) -> bool
    ensures { result ≡ has_some is_misfit_int8 columns.now }
{
    columns.iter().any(|column| is_misfit_int8(column.kind))
}

/// Whether a column of vectors of bits has a size that is out of range.
fn has_misfit_bits(columns: &[Column]) -> bool
    ensures { result ≡ has_some is_misfit_bits columns.now }
{
    columns.iter().any(|column| is_misfit_bits(column.kind))
}
