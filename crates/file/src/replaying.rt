// A list of calls on a new board.
ghost use Rattle.std.specs.Prelude.{◌≡◌};
ghost use Rattle.file.specs.States.{state_after};
ghost use Rattle.file.specs.Histories.{records_of, defined_records, MadeBy};
ghost use Rattle.file.specs.Promise.{AnswersCheapestWhenSettled};

use crate::boards::Board;
use crate::call::Call;
use crate::stepping::step;
use board::{Draft, board_theorems};
use costs::Kind;

// The board after all these calls on a new one.
pub fn replay<K: Kind>(calls: &[Call<'_>]) -> Board<K>
    ensures holds { MadeBy K.meaning calls.now result }
    ensures records { records_of result ≡ defined_records K.meaning (state_after K.meaning calls.now) }
    ensures cheapest { AnswersCheapestWhenSettled K.meaning calls.now }
{
    // (does nothing: it names what the board promises, on which `cheapest` rests)
    board_theorems();
    let mut board = Board::Drafted(Draft::new());
    for call in calls {
        board = step(board, *call, &mut []).0;
    }
    board
}
