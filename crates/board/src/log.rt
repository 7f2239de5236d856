// The log of settling: the records of the settled pairs of places, in the order of settling.
ghost use Rattle.std.specs.Prelude.{◌≡◌, ◌<◌, min, length, None as ANone, slice_index_or};
ghost use Rattle.board.specs.Logs.{Spells, pushed, empty, Refers};
ghost use Rattle.board.specs.Logged.{spelled, records};

use crate::bounds::{MANY_MOVES, MOST_PAIRS};
use crate::moves::{Move, Place};

// How a record came about: from nothing, by one step more, or by one call more. `front` and `inside` are the numbers
// of earlier records (there is no heap to hold these records themselves).
#[derive(Clone, Copy)]
pub(crate) enum Derivation {
    Start,
    Step(u16, Move),
    // front, inside, open row, close row, moment of opening
    Call(u16, u16, u8, u8, u8),
}

// The record of a pair of places: its cost, and how it came about. (Its moves are spelled out when they are asked for.)
#[derive(Clone, Copy)]
pub(crate) struct Record {
    pub from: Place,
    pub to: Place,
    pub cost: u32,
    pub derivation: Derivation,
}

// The records in the order of settling, where each pair's stands (pair number: first place times 64 plus second), and
// how many moves each spells out, 65,536 where they are more. (A plain array and its count: records are read by their
// numbers at every step, and through a list's slice each of these looks would need a fact of its own. The lengths stand
// beside them: a record is made before it is measured, and measured only when it is settled; in one array, each look at a record
// would take a pair apart.)
#[derive(Drop)]
pub(crate) struct Log {
    pub records: [Record; MOST_PAIRS],
    pub count: usize,
    pub index: [Option<u16>; MOST_PAIRS],
    pub lengths: [u32; MOST_PAIRS],
}

const BLANK: Record = Record {
    from: (0, 0),
    to: (0, 0),
    cost: 0,
    derivation: Derivation::Start,
};

impl Log {
    // Nothing settled.
    pub(crate) fn new() -> Log
        ensures { result ≡ empty }
    {
        Log {
            records: [BLANK; MOST_PAIRS],
            count: 0,
            index: [None; MOST_PAIRS],
            lengths: [0; MOST_PAIRS],
        }
    }

    // The number of the record of a pair, if it is settled.
    pub(crate) fn at(&self, pair: usize) -> Option<usize>
        requires { pair < MOST_PAIRS }
        ensures { result ≡ slice_index_or self.now.index pair ANone }
    {
        self.index[pair].map(usize::from)
    }

    // Settles a pair by a record that spells out so many moves.
    pub(crate) fn push(&mut self, pair: usize, r: Record, moves: u32)
        requires pair { pair < MOST_PAIRS }
        requires room { self.old.count < MOST_PAIRS }
        ensures { self.new ≡ pushed self.old pair r moves }
    {
        let k = self.count;
        self.records[k] = r;
        self.index[pair] = Some(k as u16);
        self.lengths[k] = moves;
        self.count = k + 1;
    }

    // How many moves a derivation spells out, 65,536 where they are more.
    pub(crate) fn length_of(&self, derivation: Derivation) -> u32
        requires refers { Refers self.now.count derivation }
        requires spells { Spells self.now }
        ensures { result ≡ min (length (spelled (records self.now) derivation)) MANY_MOVES }
    {
        match derivation {
            Derivation::Start => 0,
            Derivation::Step(front, _) => (self.lengths[front as usize] + 1).min(MANY_MOVES),
            Derivation::Call(front, inside, _, _, _) => (self.lengths[front as usize]
                + self.lengths[inside as usize]
                + 2).min(MANY_MOVES),
        }
    }
}
