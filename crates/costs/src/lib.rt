// Kinds of cost: what a kind means, the laws that every kind keeps, three kinds, and joining a list of costs.
#![tactic(auto)]

mod kind;
mod kind_name;
mod list;
mod points;
mod rank;
mod severity;

pub use kind::Kind;
pub use kind_name::{KindName, UnknownLetter};
pub use list::join_all;
pub use points::Points;
pub use rank::Rank;
pub use severity::Severity;

#[cfg(test)]
mod tests;
