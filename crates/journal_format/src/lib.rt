//! The journal's format: how batches of changes stand in a file, and what the bytes of a file give.
#![tactic(auto)]

mod encode;
mod laws;
mod view;

pub use encode::{EMPTY_JOURNAL, put_batch};
pub use laws::{blocks_are_read, changes_are_read, files_are_blocks, the_test_is_exact};
pub use view::{ChangeView, change_view, has_header, read_number};
