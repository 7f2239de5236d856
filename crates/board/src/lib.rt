// The board: rows, lines and moves, the draft and its calls, settling, and what a settled board answers.
#![tactic(auto)]

mod bounds;
mod check;
mod checker;
mod cursor;
mod draft;
mod log;
mod moves;
mod named;
mod reading;
mod refusal;
mod row;
mod settled;
mod settling;
mod tables;
mod theorems;
mod writing;

pub use check::Fault;
pub use draft::Draft;
pub use moves::Move;
pub use refusal::Refusal;
pub use row::{Line, Row, RowKind};
pub use settled::Settled;
pub use theorems::board_theorems;
