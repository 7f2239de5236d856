// Words and numbers in lines of bytes, for the programs.
#![tactic(auto)]

mod cut;
mod decimal;
mod hexadecimal;
mod split;
mod theorems;
mod trim;

pub use cut::{Newline, Separator, Spacing, pieces};
pub use decimal::{U8_MAX, U32_MAX, number, numbers};
pub use hexadecimal::{hex_byte_pairs, hex_u16, push_hex_bytes, push_hex_u16};
pub use split::split_once;
pub use theorems::word_theorems;
pub use trim::trimmed;
