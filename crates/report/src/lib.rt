// What the programs print.
#![tactic(auto)]

mod files;
mod filtering;

pub use files::least;
pub use filtering::filter;
