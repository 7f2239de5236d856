// Running a script, line by line.
ghost use Rattle.std.specs.Prelude.{◌≡◌, ◌++◌, Some, OnOk, IfOk};
ghost use Rattle.std.specs.Option.{option_map};
ghost use Rattle.board.specs.Content.{new};
ghost use Rattle.file.specs.States.{draft};
ghost use Rattle.file.specs.Histories.{state_of};
ghost use Rattle.script.specs.Commands.{command_of, on_board};
ghost use Rattle.script.specs.Script.{script_part_of, line_parsed};
ghost use Rattle.script.specs.Printing.{buffer_of, made_text, made_state, board_text, board_after, command_text, command_after, line_text, after_line, printed, PrintsAnswers};
ghost use Rattle.script.specs.Worked.{WorkedScripts};
ghost use Rattle.script.specs.Sessions.{session_state, said};

use crate::command::Command;
use crate::error::ParseError;
use crate::script::{parse, script_part};
use crate::telling::{file_of, push_answer};
use board::Draft;
use costs::{Kind, KindName, Points, Rank, Severity};
use file::{Answer, Board, step};
use std::alloc::{AllocError, Global};
use words::{Newline, pieces, word_theorems};

// The board that a script works on, by its kind. (An arm for each kind, here and where a call is made: a trait of
// its own for the two would be longer.)
#[derive(Drop)]
enum Session {
    Points(Board<Points>),
    Severity(Board<Severity>),
    Rank(Board<Rank>),
}

// A new board of the kind.
fn new_session(kind: KindName) -> Session
    ensures stands { session_state result ≡ record { kind = kind; state = draft new } }
{
    match kind {
        KindName::Points => Session::Points(Board::Drafted(Draft::new())),
        KindName::Severity => Session::Severity(Board::Drafted(Draft::new())),
        KindName::Rank => Session::Rank(Board::Drafted(Draft::new())),
    }
}

// The buffer beside the command: for path one of the length that it names, filled with aaaa.
fn buffer_of(heap: Global, command: &Command) -> Result<Vec<u16>, AllocError>
    ensures { IfOk result (λ v. v.items ≡ buffer_of (command_of command.now)) }
{
    let length = match command {
        Command::Path(length) => *length,
        _ => 0,
    };
    vec![in heap; 0xaaaa; length]
}

// One call on a board: adds its answer, and gives the board after it.
fn call_board<K: Kind>(
    out: &mut Vec<u8>,
    board: Board<K>,
    command: &Command,
) -> Result<Board<K>, AllocError>
    ensures text { OnOk result (out.new.items ≡ out.old.items ++ made_text K.meaning (state_of board) (on_board (command_of command.now)) (buffer_of (command_of command.now))) }
    ensures after { IfOk result (λ b. state_of b ≡ made_state K.meaning (state_of board) (on_board (command_of command.now))) }
{
    let mut buffer = buffer_of(*out.allocator(), command)?;
    // (naming a kind makes no call, and does not come here)
    let Some(call) = command.call() else {
        return Ok(board);
    };
    let (next, answer) = step(board, call, buffer.as_mut_slice());
    push_answer(out, answer, file_of(call), buffer.as_slice())?;
    Ok(next)
}

// One call on the board that there is.
fn call_session(
    out: &mut Vec<u8>,
    session: Session,
    command: &Command,
) -> Result<Session, AllocError>
    ensures text { OnOk result (out.new.items ≡ out.old.items ++ board_text (Some (session_state session)) (command_of command.now)) }
    ensures after { IfOk result (λ s. Some (session_state s) ≡ board_after (Some (session_state session)) (command_of command.now)) }
{
    let next = match session {
        Session::Points(board) => Session::Points(call_board(out, board, command)?),
        Session::Severity(board) => Session::Severity(call_board(out, board, command)?),
        Session::Rank(board) => Session::Rank(call_board(out, board, command)?),
    };
    Ok(next)
}

// A command of the script: a new board, or one call on the board that there is, if any.
fn obey(
    out: &mut Vec<u8>,
    session: Option<Session>,
    command: &Command,
) -> Result<Option<Session>, AllocError>
    ensures text { OnOk result (out.new.items ≡ out.old.items ++ command_text (option_map session_state session) (command_of command.now)) }
    ensures after { IfOk result (λ s. option_map session_state s ≡ command_after (option_map session_state session) (command_of command.now)) }
{
    if let Command::Kind(kind) = command {
        return Ok(Some(new_session(*kind)));
    }
    out.extend_from_slice(b" -> ")?;
    match session {
        None => {
            push_answer(out, Answer::NotTaken, &[], &[])?;
            Ok(None)
        }
        Some(session) => {
            let next = call_session(out, session, command)?;
            Ok(Some(next))
        }
    }
}

// What a line of the script says.
#[derive(Drop)]
enum Said {
    Nothing,
    Unreadable,
    Command(Command),
}

// What the line says. Memory that did not suffice for reading it is the error of the whole script.
fn read(heap: Global, line: &[u8]) -> Result<Said, AllocError>
    ensures { IfOk result (λ s. said s ≡ line_parsed line.now) }
{
    match parse(heap, line) {
        Ok(None) => Ok(Said::Nothing),
        Ok(Some(command)) => Ok(Said::Command(command)),
        Err(ParseError::Unreadable) => Ok(Said::Unreadable),
        Err(ParseError::OutOfMemory) => Err(AllocError),
    }
}

// Adds the part of the line that is the script.
fn push_script_part(out: &mut Vec<u8>, line: &[u8]) -> Result<(), AllocError>
    ensures { OnOk result (out.new.items ≡ out.old.items ++ script_part_of line.now) }
{
    out.extend_from_slice(script_part(line))
}

// Adds what is printed of the line: its part that is the script, and the answer, or nothing where it is a comment or empty.
// Gives the board after it.
fn print_line(
    heap: Global,
    out: &mut Vec<u8>,
    session: Option<Session>,
    line: &[u8],
) -> Result<Option<Session>, AllocError>
    ensures text { OnOk result (out.new.items ≡ out.old.items ++ line_text (option_map session_state session) (script_part_of line.now) (line_parsed line.now)) }
    ensures after { IfOk result (λ s. option_map session_state s ≡ after_line (option_map session_state session) (line_parsed line.now)) }
{
    match read(heap, line)? {
        Said::Nothing => Ok(session),
        Said::Command(command) => {
            push_script_part(out, line)?;
            let next = obey(out, session, &command)?;
            out.extend_from_slice(b"\n")?;
            Ok(next)
        }
        Said::Unreadable => {
            push_script_part(out, line)?;
            out.extend_from_slice(b" -> unreadable\n")?;
            Ok(session)
        }
    }
}

// Runs the script, and gives what is printed: each line with its answer, without comments and empty lines.
#[tactic(auto, using(crate::proofs::Answered::prints_answers, crate::proofs::Working::worked))]
pub fn run(heap: Global, input: &[u8]) -> Result<Vec<u8>, AllocError>
    ensures lines { IfOk result (λ v. v.items ≡ printed input.now) }
    ensures prints_answers { PrintsAnswers }
    ensures worked { WorkedScripts }
{
    word_theorems();
    let lines = pieces::<Newline>(heap, input)?;
    let mut out = Vec::new(heap);
    let mut session = None;
    for line in lines.as_slice() {
        session = print_line(heap, &mut out, session, line)?;
    }
    Ok(out)
}
