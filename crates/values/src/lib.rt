// What the public values of the other crates keep.
#![tactic(auto)]

mod exact;
mod text;

pub use exact::{ExactClone, ExactEq};
pub use text::write_plain;

#[cfg(test)]
mod tests;
