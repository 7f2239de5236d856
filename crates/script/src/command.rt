// The commands of a script, and the calls on a board that they make.
ghost use Rattle.std.specs.Prelude.{◌≡◌};
ghost use Rattle.std.specs.Option.{option_map};
ghost use Rattle.script.specs.Commands.{command_of, on_board};
ghost use Rattle.script.specs.Sessions.{without_address};

use board::{Line, Row};
use costs::KindName;
use file::Call;

// One command.
#[derive(Debug, PartialEq, Eq, Drop)]
pub enum Command {
    // a new board of this kind
    Kind(KindName),
    // how many modes and moments
    Size(u32, u32),
    AddRow(Row),
    AddLine(Line),
    // the row's or the line's number, and its cost
    RepriceRow(usize, u32),
    RepriceLine(usize, u32),
    ClearLines,
    // a file's bytes
    Load(Vec<u8>),
    Settle,
    Reopen,
    Cost,
    // the buffer's length
    Path(usize),
    // the numbers of two places
    Between(usize, usize),
    // a list of packed moves
    Check(Vec<u16>),
}

impl Command {
    // The call that it makes on a board; naming a kind makes none.
    pub(crate) fn call(&self) -> Option<Call<'_>>
        ensures { option_map without_address result ≡ on_board (command_of self.now) }
    {
        let call = match self {
            Command::Kind(_) => return None,
            Command::Size(modes, moments) => Call::Size(*modes, *moments),
            Command::AddRow(row) => Call::AddRow(*row),
            Command::AddLine(line) => Call::AddLine(*line),
            Command::RepriceRow(n, cost) => Call::RepriceRow(*n, *cost),
            Command::RepriceLine(n, cost) => Call::RepriceLine(*n, *cost),
            Command::ClearLines => Call::ClearLines,
            Command::Load(bytes) => Call::Load(bytes.as_slice()),
            Command::Settle => Call::Settle,
            Command::Reopen => Call::Reopen,
            Command::Cost => Call::Cost,
            Command::Path(_) => Call::Path,
            Command::Between(from, to) => Call::Between(*from, *to),
            Command::Check(moves) => Call::Check(moves.as_slice()),
        };
        Some(call)
    }
}
