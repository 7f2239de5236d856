// A settled board: its tables, and the log of the settled pairs.
ghost use Rattle.std.specs.Prelude.{◌≡◌};
ghost use Rattle.board.specs.Held.{held};
ghost use Rattle.board.specs.Logs.{Book, Book-prop};
ghost use Rattle.board.specs.Logged.{records};
ghost use Rattle.board.specs.Computing.{settled_log};

use crate::bounds::{MANY_MOVES, MOST_PLACES, MOST_WRITTEN};
use crate::check::Fault;
use crate::draft::Draft;
use crate::log::Log;
use crate::moves::{Move, Place};
use crate::reading::{Reading, better};
use crate::refusal::Refusal;
use crate::row::Row;
use crate::tables::Tables;
use crate::writing::{MoveForm, write_moves};
use costs::Kind;

// A settled board whose costs are of the kind K.
#[derive(Drop)]
pub struct Settled<K: Kind> {
    pub(crate) tables: Tables<K>,
    pub(crate) log: Log,
    ghost book: { Book K.meaning (held tables) log } by { Book-prop _ _ _ },
    ghost settled: { records log ≡ settled_log K.meaning (held tables) },
}

impl<K: Kind> Settled<K> {
    ghost use Rattle.std.specs.Prelude.{◌*◌, ◌<◌, length};
    ghost use Rattle.board.specs.Held.{draft_content};
    ghost use Rattle.board.specs.Boards.{settled_content, settled_records};
    ghost use Rattle.std.specs.List.{slice_get};
    ghost use Rattle.board.specs.Checks.{check_answer};
    ghost use Rattle.board.specs.Accepted.{AcceptsReadings};
    ghost use Rattle.board.specs.Faults.{RefusesFaults};
    ghost use Rattle.board.specs.Paths.{GrammarIsStack};
    ghost use Rattle.board.specs.Promises.{MovesComputed, OneCost};
    ghost use Rattle.board.specs.Packing.{packed};
    ghost use Rattle.board.specs.Questions.{between_answer, cost_answer, reading_answer, reading_after, path_answer, path_after, moves_answer, moves_after};
    ghost use Rattle.board.specs.Meanings.{CostIsCheapest, WritesCheapestReading, BetweenIsLeast};
    ghost use Rattle.board.specs.Computing.{record_between, reading_at, recorded_reading};
    ghost use Rattle.board.specs.Moves.{On};
    ghost use Rattle.board.specs.ByNumber.{NumberIn, ReadingIn, record_by_number, reading_of};

    // Back to a draft of the same content.
    pub fn reopen(self) -> Draft<K>
        ensures content { draft_content result ≡ settled_content self }
    {
        Draft {
            tables: self.tables,
        }
    }

    // Row n as it was added, with its cost as it was last set.
    pub fn row(&self, n: usize) -> Option<Row>
        ensures { result ≡ slice_get (settled_content self.now).rows n }
    {
        self.tables.rows.get(n).copied()
    }

    // The recorded cost from the place numbered `from` to the place numbered `to`.
    pub fn between(&self, from: usize, to: usize) -> Result<u32, Refusal>
        ensures answer { result ≡ between_answer (settled_content self.now) (settled_records self.now) from to }
        ensures means { BetweenIsLeast K.meaning (settled_content self.now) from to result }
    {
        let places = self.tables.modes as usize * self.tables.moments as usize;
        if from >= places || to >= places {
            return Err(Refusal::PlaceOut);
        }
        let i = self.record_between(from, to).ok_or(Refusal::Unsettled)?;
        Ok(self.log.records[i].cost)
    }

    // The recorded reading's cost and number of moves, 65,536 where it has more.
    pub fn cost(&self) -> Result<(u32, u32), Refusal>
        ensures answer { result ≡ cost_answer K.meaning (settled_content self.now) (settled_records self.now) }
        ensures means { CostIsCheapest K.meaning (settled_content self.now) (settled_records self.now) result }
    {
        let r = self.recorded().ok_or(Refusal::NoReading)?;
        Ok((r.cost, (self.log.lengths[r.before] + 1).min(MANY_MOVES)))
    }

    // Writes the recorded reading's moves, each in the buffer's form, to the front of the buffer, and answers how many.
    fn write_reading<F: MoveForm>(&self, buffer: &mut [F]) -> Result<usize, Refusal>
        ensures answer { result ≡ reading_answer K.meaning (settled_content self.now) (settled_records self.now) buffer.old }
        ensures after { buffer.new ≡ reading_after F.form K.meaning (settled_content self.now) (settled_records self.now) buffer.old }
        ensures means { WritesCheapestReading F.form K.meaning (settled_content self.now) (settled_records self.now) buffer.old result buffer.new }
    {
        let r = self.recorded().ok_or(Refusal::NoReading)?;
        let moves = self.log.lengths[r.before] as usize;
        if moves >= buffer.len() || moves >= MOST_WRITTEN {
            return Err(Refusal::TooLong);
        }
        let n = write_moves(&self.log, r.before, buffer);
        buffer[n] = F::from_move(Move {
            row: r.row,
            line: None,
        });
        Ok(n + 1)
    }

    // Writes the recorded reading's packed moves to the front of the buffer, and answers how many.
    pub fn path(&self, buffer: &mut [u16]) -> Result<usize, Refusal>
        ensures answer { result ≡ path_answer K.meaning (settled_content self.now) (settled_records self.now) buffer.old }
        ensures after { buffer.new ≡ path_after K.meaning (settled_content self.now) (settled_records self.now) buffer.old }
        ensures means { WritesCheapestReading packed K.meaning (settled_content self.now) (settled_records self.now) buffer.old result buffer.new }
    {
        self.write_reading(buffer)
    }

    // Writes the recorded reading's moves to the front of the buffer, and answers how many; refuses as `path` does.
    pub fn moves(&self, buffer: &mut [Move]) -> Result<usize, Refusal>
        ensures answer { result ≡ moves_answer K.meaning (settled_content self.now) (settled_records self.now) buffer.old }
        ensures after { buffer.new ≡ moves_after K.meaning (settled_content self.now) (settled_records self.now) buffer.old }
        ensures means { WritesCheapestReading (λ v. v) K.meaning (settled_content self.now) (settled_records self.now) buffer.old result buffer.new }
    {
        self.write_reading(buffer)
    }

    // The cost of the complete reading that the packed moves are, or the first faulty move.
    pub fn check(&self, moves: &[u16]) -> Result<u32, Fault>
        ensures answer { result ≡ check_answer K.meaning (settled_content self.now) moves.now }
        ensures readings { AcceptsReadings K.meaning (settled_content self.now) moves.now result }
        ensures refusals { RefusesFaults K.meaning (settled_content self.now) moves.now result }
        ensures single { OneCost }
        ensures balance { GrammarIsStack }
        ensures moves { MovesComputed }
    {
        self.tables.check(moves)
    }

    // The number of the record from the place numbered `from` to the place numbered `to`, if the pair is settled.
    pub(crate) fn record_between(&self, from: usize, to: usize) -> Option<usize>
        requires from { from < self.now.tables.modes * self.now.tables.moments }
        requires to { to < self.now.tables.modes * self.now.tables.moments }
        ensures which { record_by_number self.now.log result ≡ record_between (settled_content self.now) (settled_records self.now) from to }
        ensures within { NumberIn self.now.log.count result }
    {
        self.log.at(from * MOST_PLACES + to)
    }

    // The reading by the row at the place: the record from place 0 to there, and that row, if it is an end row.
    fn reading_at(&self, row: u8, place: Place) -> Option<Reading>
        requires { On (settled_content self.now) place }
        ensures which { reading_of self.now.log result ≡ reading_at K.meaning (settled_content self.now) (settled_records self.now) row place }
        ensures within { ReadingIn self.now.log.count (length self.now.tables.rows.items) result }
    {
        let h = self.tables.arrival(Move { row, line: None }, place)?;
        let before = self.record_between(0, self.tables.place_number(place))?;
        if !h.effect.is_end() {
            return None;
        }
        let cost = K::join(self.log.records[before].cost, h.cost);
        Some(Reading { row, before, cost })
    }

    // The recorded reading, if there is one.
    pub(crate) fn recorded(&self) -> Option<Reading>
        ensures which { reading_of self.now.log result ≡ recorded_reading K.meaning (settled_content self.now) (settled_records self.now) }
        ensures within { ReadingIn self.now.log.count (length self.now.tables.rows.items) result }
    {
        let mut best = None;
        for (n, row) in self.tables.rows.iter().enumerate() {
            for moment in 0..self.tables.moments {
                let next = self.reading_at(n as u8, (row.from, moment));
                best = better::<K>(best, next);
            }
        }
        best
    }
}
