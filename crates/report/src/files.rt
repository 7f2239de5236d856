// What `least` prints of a file.
ghost use Rattle.std.specs.Prelude.{◌≡◌, ◌++◌, IfOk, OnOk, slice_index_or, string_bytes};
ghost use Rattle.std.specs.List.{All};
ghost use Rattle.costs.specs.Names.{meaning_of};
ghost use Rattle.board.specs.Boards.{settled_content};
ghost use Rattle.report.specs.Adding.{ByHeldRow, LinesAdded};
ghost use Rattle.report.specs.Least.{meaning_under, move_line, cost_line, SettledText, Prints, PrintsSome, LeastPrints, LeastPrintsSome, LimitNeverShows};
ghost use Rattle.report.specs.Worked.{WorkedExamples};

use board::{Draft, Move, Row, Settled, board_theorems};
use costs::{Kind, KindName, Points, Rank, Severity};
use file::{Load, file_theorems};
use std::alloc::{AllocError, Global};
use std::fmt::Write;

// The most moves of a reading that is printed.
const MOST_MOVES: usize = 4096;

// Adds the line of a move by that row: the row's number, the move's line or `-`, and the row's action.
fn push_move(out: &mut String, v: Move, by: Row) -> Result<(), AllocError>
    ensures { OnOk result (string_bytes out.new ≡ string_bytes out.old ++ move_line v by) }
{
    let (row, action) = (v.row, by.action);
    match v.line {
        Some(line) => writeln!(out, "{row} {line} {action}"),
        None => writeln!(out, "{row} - {action}"),
    }
}

// Adds the lines of moves by rows that the board holds.
fn push_moves<K: Kind>(
    out: &mut String,
    settled: &Settled<K>,
    moves: &[Move],
) -> Result<(), AllocError>
    requires { All (ByHeldRow (settled_content settled.now)) moves.now }
    ensures { OnOk result (LinesAdded (settled_content settled.now) moves.now (string_bytes out.old) (string_bytes out.new)) }
{
    for &v in moves {
        let by = settled.row(usize::from(v.row)).unwrap();
        push_move(out, v, by)?;
    }
    Ok(())
}

// The first line: letter, cost and number of moves.
fn first_line<K: Kind>(heap: Global, cost: u32, moves: usize) -> Result<String, AllocError>
    ensures { IfOk result (λ s. string_bytes s ≡ cost_line K.meaning.letter cost moves) }
{
    let letter = K::letter();
    format!(in heap; "{letter} {cost} {moves}\n")
}

// What is printed of a settled board: cost and moves, or why there are none. (A refusal is printed here, and not passed on.)
fn reading<K: Kind>(heap: Global, settled: &Settled<K>) -> Result<String, AllocError>
    ensures { IfOk result (λ s. SettledText K.meaning (settled_content settled.now) (string_bytes s)) }
{
    board_theorems();
    let cost = match settled.cost() {
        Ok((cost, _)) => cost,
        Err(refusal) => return format!(in heap; "{refusal}\n"),
    };
    // `moves` writes to the front of a buffer, over whatever moves stand there, and tells how many
    let mut buffer = [Move { row: 0, line: None }; MOST_MOVES];
    let n = match settled.moves(&mut buffer) {
        Ok(n) => n,
        Err(refusal) => return format!(in heap; "{refusal}\n"),
    };
    let mut out = first_line::<K>(heap, cost, n)?;
    push_moves(&mut out, settled, &buffer[..n])?;
    Ok(out)
}

// What is printed of a file under a kind. (A frame of its own for each kind, so that only one kind's is set up.)
#[inline(never)]
fn under<K: Kind>(heap: Global, bytes: &[u8]) -> Result<String, AllocError>
    ensures text { IfOk result (λ s. Prints K.meaning bytes.now (string_bytes s)) }
    ensures some { PrintsSome K.meaning bytes.now }
{
    let mut draft = Draft::<K>::new();
    match draft.load(bytes) {
        Ok(_) => reading(heap, &draft.settle()),
        Err(fault) => format!(in heap; "{fault}\n"),
    }
}

// The kind whose letter the file begins with; points under any other, and for an empty file.
fn kind_of(bytes: &[u8]) -> KindName
    ensures { meaning_of result ≡ meaning_under (slice_index_or bytes.now 0 80) }
{
    let letter = bytes.first().map_or('P', |byte| char::from(*byte));
    KindName::try_from(letter).unwrap_or(KindName::Points)
}

// What `least` prints of a file's bytes: under the kind of its first letter, or under points. (A kind is a type: a trait
// whose method is run under each would be no plainer than three arms.)
#[tactic(auto, using(crate::proofs::Working::worked))]
pub fn least(heap: Global, bytes: &[u8]) -> Result<Vec<u8>, AllocError>
    ensures text { IfOk result (λ v. LeastPrints bytes.now v.items) }
    ensures some { LeastPrintsSome bytes.now }
    ensures limit { LimitNeverShows }
    ensures examples { WorkedExamples }
{
    // by these the examples and the limit are proved
    board_theorems();
    file_theorems();
    let lines = match kind_of(bytes) {
        KindName::Points => under::<Points>(heap, bytes),
        KindName::Severity => under::<Severity>(heap, bytes),
        KindName::Rank => under::<Rank>(heap, bytes),
    }?;
    Ok(lines.into_bytes())
}
