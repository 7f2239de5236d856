// The file: its layout, and loading it into a draft of a board.
#![tactic(auto)]

mod boards;
mod call;
mod fields;
mod filling;
mod loading;
mod part;
mod reader;
mod record;
mod refusal;
mod replaying;
mod section;
mod stepping;
mod theorems;
mod trust;
mod unread;

pub use boards::Board;
pub use call::{Answer, Call, NoteSpan};
pub use loading::Load;
pub use part::{Note, Part};
pub use refusal::{FileRefusal, Layer, LoadFault};
pub use replaying::replay;
pub use stepping::step;
pub use theorems::file_theorems;
