// Spelling out the moves of a record.
ghost use Rattle.std.specs.Prelude.{◌≡◌, ℕ, ◌<◌, ◌≤◌, ◌++◌, map, length, drop};
ghost use Rattle.board.specs.declared.moves.Move.{Move as AMove};
ghost use Rattle.board.specs.Packing.{packed, Small};
ghost use Rattle.board.specs.Logs.{Spells};
ghost use Rattle.board.specs.Spelled.{moves_at, move_of};

use crate::bounds::MANY_MOVES;
use crate::cursor::Cursor;
use crate::log::Log;
use crate::moves::Move;

// A form in which moves are written into a buffer.
pub(crate) trait MoveForm: Copy {
    ghost form: { AMove → Self };

    // The move in this form.
    fn from_move(v: Move) -> Self
        requires { Small v }
        ensures { result ≡ form v };
}

// The move itself.
impl MoveForm for Move {
    ghost form = { λ v. v };

    fn from_move(v: Move) -> Move {
        v
    }
}

// The move packed.
impl MoveForm for u16 {
    ghost form = { packed };

    fn from_move(v: Move) -> u16 {
        v.pack()
    }
}

// Writes the moves of the record i, in order and each in the buffer's form, from the last back to the first. (By an index: what
// a loop over `iter_mut().rev()` wrote is not known after it.)
pub(crate) fn write_moves<F: MoveForm>(log: &Log, i: usize, out: &mut [F]) -> usize
    requires spells { Spells log.now }
    requires within { i < log.now.count }
    requires short { length (moves_at log.now i) < MANY_MOVES }
    requires small { (k : ℕ) → k < length (moves_at log.now i) → Small (move_of log.now i k) }
    requires room { length (moves_at log.now i) ≤ length out.old }
    ensures count { result ≡ length (moves_at log.now i) }
    ensures after { out.new ≡ map F.form (moves_at log.now i) ++ drop (length (moves_at log.now i)) out.old }
{
    let n = log.lengths[i] as usize;
    let mut cursor = Cursor::past(i);
    for k in (0..n).rev() {
        out[k] = F::from_move(cursor.previous(log));
    }
    n
}
