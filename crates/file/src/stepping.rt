// One call on a board.
ghost use Rattle.std.specs.Prelude.{◌≡◌, List};
ghost use Rattle.board.specs.Held.{draft_content};
ghost use Rattle.board.specs.Boards.{settled_content, settled_records};
ghost use Rattle.file.specs.declared.call.Call.{Call};
ghost use Rattle.file.specs.States.{edited, stepped};
ghost use Rattle.file.specs.Answers.{draft_answer, settled_answer, settled_buffer, step_answer, step_buffer, NoteStands, GivesItsNumbers};
ghost use Rattle.file.specs.Histories.{state_of, records_of, MadeBy, OneCallMore};

use crate::boards::Board;
use crate::call::{Answer, Call, NoteSpan};
use crate::loading::Load;
use board::{Draft, Settled, board_theorems};
use costs::Kind;

// A call on a draft, other than settling it.
fn edit<K: Kind>(draft: &mut Draft<K>, call: Call<'_>) -> Answer
    ensures answer { result ≡ draft_answer K.meaning (draft_content draft.old) call.entry }
    ensures after { draft_content draft.new ≡ edited K.meaning (draft_content draft.old) call.entry }
    ensures note { NoteStands K.meaning call.entry result }
{
    match call {
        Call::Size(modes, moments) => Answer::Sized(draft.size(modes, moments)),
        Call::AddRow(row) => Answer::Added(draft.add_row(row)),
        Call::AddLine(line) => Answer::Added(draft.add_line(line)),
        Call::RepriceRow(n, cost) => Answer::Repriced(draft.reprice_row(n, cost)),
        Call::RepriceLine(n, cost) => Answer::Repriced(draft.reprice_line(n, cost)),
        Call::ClearLines => Answer::Cleared(draft.clear_lines()),
        Call::Load(bytes) => Answer::Loaded(draft.load(bytes).map(|note| NoteSpan::of(note))),
        Call::Settle
        | Call::Cost
        | Call::Path
        | Call::Between(_, _)
        | Call::Check(_)
        | Call::Reopen => Answer::NotTaken,
    }
}

// A question to a settled board.
fn ask<K: Kind>(settled: &Settled<K>, call: Call<'_>, buffer: &mut [u16]) -> Answer
    ensures answer { result ≡ settled_answer K.meaning (settled_content settled.now) (settled_records settled.now) call.entry buffer.old }
    ensures after { buffer.new ≡ settled_buffer K.meaning (settled_content settled.now) (settled_records settled.now) call.entry buffer.old }
{
    match call {
        Call::Cost => Answer::Cost(settled.cost()),
        Call::Path => Answer::Path(settled.path(buffer)),
        Call::Between(from, to) => Answer::Between(settled.between(from, to)),
        Call::Check(moves) => Answer::Checked(settled.check(moves)),
        _ => Answer::NotTaken,
    }
}

// One call more on a board; a call that the board does not take at this time leaves board and buffer.
pub fn step<K: Kind>(board: Board<K>, call: Call<'_>, buffer: &mut [u16]) -> (Board<K>, Answer)
    ensures state { state_of result.0 ≡ stepped K.meaning (state_of board) call.entry }
    ensures answer { result.1 ≡ step_answer K.meaning (state_of board) (records_of board) call.entry buffer.old }
    ensures after { buffer.new ≡ step_buffer K.meaning (state_of board) (records_of board) call.entry buffer.old }
    ensures note { NoteStands K.meaning call.entry result.1 }
    ensures numbers { GivesItsNumbers }
    ensures history { (calls : List Call) → MadeBy K.meaning calls board → OneCallMore K.meaning calls call.entry buffer.old result.0 result.1 buffer.new }
{
    // (does nothing: it names what the board promises, on which `history` rests)
    board_theorems();
    match board {
        Board::Drafted(mut draft) => match call {
            Call::Settle => (Board::Settled(draft.settle()), Answer::Settled),
            _ => {
                let answer = edit(&mut draft, call);
                (Board::Drafted(draft), answer)
            }
        },
        Board::Settled(settled) => match call {
            Call::Reopen => (Board::Drafted(settled.reopen()), Answer::Reopened),
            _ => {
                let answer = ask(&settled, call, buffer);
                (Board::Settled(settled), answer)
            }
        },
    }
}
