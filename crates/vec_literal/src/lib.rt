//! The tokens of statements, and the literals of texts, blobs, int8 and bit vectors.
#![tactic(auto)]

mod bits;
mod int8;
mod literal;
mod quote;
mod token;
mod usual_int8;

pub use bits::{read_bits, write_bits};
pub use int8::{LitFault, read_int8, write_int8};
pub use literal::{between_quotes, read_blob, read_text};
pub use token::{Lexed, Token, TokenSort, leading_white, next_token};
