//! The kinds of records, and the sizes in them that are chosen.

/// What a table is called and made of, and the greatest rowid that it ever held.
pub const INFO_RECORDS: u8 = 1;

/// A chunk's partition values, which of its slots are used, and their rowids.
pub const CHUNK_RECORDS: u8 = 2;

/// A row's place, and its text id.
pub const ROW_RECORDS: u8 = 3;

/// The vectors of a chunk in one column.
pub const VECTOR_RECORDS: u8 = 4;

/// The metadata of a chunk in one column.
pub const METADATA_RECORDS: u8 = 5;

/// A metadata text that is longer than its view.
pub const LONG_TEXT_RECORDS: u8 = 6;

/// An auxiliary value.
pub const AUXILIARY_RECORDS: u8 = 7;

/// How many bytes of a text stand among the metadata of its chunk.
pub const TEXT_VIEW_BYTES: usize = 12;
