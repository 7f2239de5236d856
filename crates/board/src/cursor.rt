// A cursor on the moves of a record, from the last back to the first.
ghost use Rattle.std.specs.Prelude.{◌≡◌, ◌<◌, [], ◌∷◌, ◌++◌, length};
ghost use Rattle.board.specs.Logs.{Spells};
ghost use Rattle.board.specs.Spelled.{moves_at};
ghost use Rattle.board.specs.Cursors.{Walks, remaining};

use crate::bounds::MOST_PAIRS;
use crate::log::{Derivation, Log};
use crate::moves::Move;
use arrayvec::ArrayVec;

// A call whose inside is being read: its open row and then the moves of its front are still to come.
#[derive(Clone, Copy, Default)]
pub(crate) struct Pending {
    pub front: u16,
    pub row: u8,
}

// The record being read, and the calls that it stands inside, the innermost last.
#[derive(Drop)]
pub(crate) struct Cursor {
    at: usize,
    stack: ArrayVec<Pending, MOST_PAIRS>,
}

impl Cursor {
    // Past the last move of the record i.
    pub(crate) fn past(i: usize) -> Cursor
        ensures walks { (l : Log) → i < l.count → Walks l result }
        ensures all { (l : Log) → remaining l result ≡ moves_at l i }
    {
        Cursor {
            at: i,
            stack: ArrayVec::new(),
        }
    }

    // Gives the last of the moves that are left, and steps back over it.
    pub(crate) fn previous(&mut self, log: &Log) -> Move
        requires spells { Spells log.now }
        requires walks { Walks log.now self.old }
        requires left { 0 < length (remaining log.now self.old) }
        ensures walks { Walks log.now self.new }
        ensures last { remaining log.now self.old ≡ remaining log.now self.new ++ (result ∷ []) }
    {
        let at = log.records[self.at];
        match at.derivation {
            Derivation::Start => {
                let Some(pending) = self.stack.pop() else {
                    unreachable!()
                };
                self.at = pending.front as usize;
                Move {
                    row: pending.row,
                    line: None,
                }
            }
            Derivation::Step(front, by) => {
                self.at = front as usize;
                by
            }
            Derivation::Call(front, inside, open, close, _) => {
                self.stack.push(Pending { front, row: open });
                self.at = inside as usize;
                Move {
                    row: close,
                    line: None,
                }
            }
        }
    }
}
