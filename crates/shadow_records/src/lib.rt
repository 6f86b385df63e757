//! The records under which tables are kept: their keys, their bodies, changes of them, and which tables they stand for.
#![tactic(auto)]

mod kinds;

pub use kinds::{
    AUXILIARY_RECORDS, CHUNK_RECORDS, INFO_RECORDS, LONG_TEXT_RECORDS, METADATA_RECORDS,
    ROW_RECORDS, TEXT_VIEW_BYTES, VECTOR_RECORDS,
};
