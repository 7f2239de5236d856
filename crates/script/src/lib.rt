// Scripts of commands, which make calls on a board: reading a line, running it, and what is printed of its answer.
#![tactic(auto)]

mod check;
mod command;
mod error;
mod filtering;
mod forms;
mod limits;
mod name;
mod running;
mod script;
mod telling;

pub use command::Command;
pub use error::ParseError;
pub use filtering::filter;
pub use running::run;
pub use script::{parse, script_part};
