// Places and moves, and the packing of a move.
ghost use Rattle.std.specs.Prelude.{◌≡◌};
ghost use Rattle.std.proofs.Common.{rules};
ghost use Rattle.board.specs.Moves.{is_end};
ghost use Rattle.board.specs.Packing.{packed, Small, unpacked, PackingIsExact};

use values::{ExactClone, ExactEq};

// A mode and a moment.
pub type Place = (u8, u8);

// A row, with the line it goes with if it takes one.
#[derive(Clone, Copy, Debug, PartialEq, Eq)]
pub struct Move {
    pub row: u8,
    pub line: Option<u8>,
}

// What a move does to the brackets.
#[derive(Clone, Copy)]
pub enum Effect {
    // nothing
    Quiet,
    // opens a bracket of this number
    Opens(u8),
    // closes a bracket of this number
    Closes(u8),
    // ends the reading
    Ends,
}

// Where a move leads, at what cost, and what it does to the brackets.
#[derive(Clone, Copy)]
pub struct Arrival {
    pub to: Place,
    pub cost: u32,
    pub effect: Effect,
}

impl Move {
    // The move in 16 bits, most significant first: a zero bit, the row in 7 bits, a bit that is 1 with a line, the line in 7
    // bits or zeros. (By hand, and not by conversion traits: this is the format, and only small moves have it.)
    pub(crate) fn pack(self) -> u16
        requires { Small self }
        ensures { result ≡ packed self }
    {
        match self.line {
            None => self.row as u16 * 256,
            Some(line) => self.row as u16 * 256 + 128 + line as u16,
        }
    }

    // The move that the number packs, or none where it breaks the packing.
    pub fn unpack(number: u16) -> Option<Move>
        ensures apart { result ≡ unpacked number }
        ensures exact { PackingIsExact }
    {
        if number >= 32768 {
            return None;
        }
        let row = (number / 256) as u8;
        let line = (number % 128) as u8;
        if number / 128 % 2 == 1 {
            Some(Move {
                row,
                line: Some(line),
            })
        } else if line == 0 {
            Some(Move { row, line: None })
        } else {
            None
        }
    }
}

impl Effect {
    // Whether it ends the reading.
    pub(crate) fn is_end(self) -> bool
        ensures { result ≡ is_end self }
    {
        matches!(self, Effect::Ends)
    }
}

impl ExactClone for Move {
    ghost clone_is_same = { Prim.search rules };
}

impl ExactEq for Move {
    ghost equal_is_same = { Prim.search rules };
}
