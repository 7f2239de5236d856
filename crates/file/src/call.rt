// Calls on a board, and what they answer.
ghost use Rattle.std.specs.Prelude.{◌≡◌};
ghost use Rattle.std.proofs.Common.{rules};
ghost use Rattle.std.specs.Cmp.Rules.{comparing};
ghost use Rattle.file.specs.Parts.{part_read};
ghost use Rattle.file.specs.Answers.{span, bytes_at};

use crate::part::Note;
use crate::refusal::LoadFault;
use board::{Fault, Line, Refusal, Row};
use values::{ExactClone, ExactEq};

// A call with its arguments. The buffer that `Path` writes into goes beside the call.
#[derive(Clone, Copy, Debug, PartialEq, Eq)]
pub enum Call<'a> {
    Size(u32, u32),
    AddRow(Row),
    AddLine(Line),
    RepriceRow(usize, u32),
    RepriceLine(usize, u32),
    ClearLines,
    Load(&'a [u8]),
    Settle,
    Cost,
    Path,
    Between(usize, usize),
    Check(&'a [u16]),
    Reopen,
}

// Where the note of a loaded file stands: the place of its first byte in the file, and how many bytes it has.
#[derive(Clone, Copy, Debug, PartialEq, Eq)]
pub struct NoteSpan {
    pub place: usize,
    pub length: usize,
}

impl NoteSpan {
    // Where this note stands.
    pub(crate) fn of(note: Note<'_>) -> NoteSpan
        ensures { result ≡ span (part_read note.entry) }
    {
        NoteSpan {
            place: note.place,
            length: note.bytes.len(),
        }
    }

    // The bytes of the file that stand there; of the file that was loaded these are the note's.
    pub fn bytes<'a>(self, file: &'a [u8]) -> &'a [u8]
        ensures { result.now ≡ bytes_at self file.now }
    {
        let rest = &file[self.place.min(file.len())..];
        &rest[..self.length.min(rest.len())]
    }
}

// What a call answers.
#[derive(Clone, Copy, Debug, PartialEq, Eq)]
pub enum Answer {
    // the board does not take this call at this time
    NotTaken,
    // nothing, or 1 or 2
    Sized(Result<(), Refusal>),
    // the new row's or line's number, or for a row 3, 4, 5 or 10, for a line 6, 7, 8 or 10
    Added(Result<usize, Refusal>),
    // nothing, or 9 or 10
    Repriced(Result<(), Refusal>),
    // how many lines were dropped
    Cleared(usize),
    // where the note stands, or 2 to 8, 10 or 20 to 24, and where
    Loaded(Result<NoteSpan, LoadFault>),
    // settling cannot refuse
    Settled,
    // the cost and the number of moves, or 11
    Cost(Result<(u32, u32), Refusal>),
    // how many moves were written, or 11 or 12
    Path(Result<usize, Refusal>),
    // the least cost between two places, or 13 or 14
    Between(Result<u32, Refusal>),
    // the cost of the list, or 15 to 19 and where
    Checked(Result<u32, Fault>),
    // reopening cannot refuse
    Reopened,
}

impl ExactClone for Call<'_> {
    ghost clone_is_same = { Prim.search rules };
}

impl ExactClone for NoteSpan {
    ghost clone_is_same = { Prim.search rules };
}

impl ExactEq for NoteSpan {
    ghost equal_is_same = { Prim.search (comparing, rules) };
}

impl ExactClone for Answer {
    ghost clone_is_same = { Prim.search rules };
}
