// Why a call was declined.
ghost use Rattle.std.specs.Prelude.{◌≡◌, Some};
ghost use Rattle.std.proofs.Common.{rules};
ghost use Rattle.board.specs.Refusals.{number, refusal_text};

use std::error::Error;
use std::fmt;
use values::{ExactClone, ExactEq, write_plain};

// The board's refusals. Each call gives the first of its own that applies, in the order of the numbers; the check asks this of one move after the other.
#[derive(Clone, Copy, Debug, PartialEq, Eq)]
pub enum Refusal {
    // 1, size: a row or a line is held
    NotEmpty = 1,
    // 2, size: M times T is 0 or above 64
    SizeOut = 2,
    // 3, add row: 128 rows are held
    RowsFull = 3,
    // 4, add row: a mode is not below M
    ModeOut = 4,
    // 5, add row: a label or action that must be 0 is not, a bracket is above 15, or an end row's modes differ
    BadRow = 5,
    // 6, add line: 128 lines are held
    LinesFull = 6,
    // 7, add line: a moment is not below T
    MomentOut = 7,
    // 8, add line: the event is 0
    NoEvent = 8,
    // 9, reprice: there is no such row or line
    NoSuch = 9,
    // 10, add or reprice: the number is no cost of the kind
    NotACost = 10,
    // 11, cost, path and moves: no end row has a joined cost below the worst
    NoReading = 11,
    // 12, path and moves: the reading is longer than the buffer or than 65,535 moves
    TooLong = 12,
    // 13, between: a place is not below M times T
    PlaceOut = 13,
    // 14, between: the pair is not settled
    Unsettled = 14,
    // 15, check: the move breaks the packing, names a row or line not held, has a line where its row takes none, or
    // lacks a line of its row's event
    BadMove = 15,
    // 16, check: the move does not start where the last one ended (place 0 at first), or follows an end row
    NotNext = 16,
    // 17, check: the move closes a bracket that is not the last one open, or is an end row with one open
    BadBracket = 17,
    // 18, check: the move opens a bracket above 4,096 open ones
    TooDeep = 18,
    // 19, check: the list stops without an end row
    NoEnd = 19,
}

impl Refusal {
    // Its number. (By `as`, the language's own conversion of an enum with numbers.)
    pub fn number(self) -> u8
        ensures { result ≡ number self }
    {
        self as u8
    }
}

// As programs tell it, under any options: `no` and its number.
impl fmt::Display for Refusal {
    ghost output = { λ e. Some (refusal_text e) };

    ghost styled_output = { λ e _. Some (refusal_text e) };

    fn fmt<W: fmt::Write>(&self, f: &mut fmt::Formatter<W>) -> fmt::Result {
        write_plain(f, format_args!("no {}", self.number()))
    }
}

impl Error for Refusal {}

impl ExactClone for Refusal {
    ghost clone_is_same = { Prim.search rules };
}

impl ExactEq for Refusal {
    ghost equal_is_same = { Prim.search rules };
}
