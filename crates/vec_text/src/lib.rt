//! Texts that are put together part by part: what takes them, and one writer for each kind of thing that is written.
#![tactic(auto)]

mod hexadecimal;
mod number;
mod piece;
mod refusal;
mod takes;
mod value;
mod vector;

pub use hexadecimal::put_hex;
pub use number::{put_number, put_signed};
pub use piece::{Piece, put_separated};
pub use refusal::{put_counted, put_refusal, put_signed_counted};
pub use takes::Takes;
pub use value::{put_quoted, put_value};
pub use vector::put_int8;
