// The tables of rows and lines, and their size: filled, asked, and read by moves.
ghost use Rattle.board.specs.Content.{content, Sound};

use crate::bounds::{MOST_LINES, MOST_PLACES, MOST_ROWS};
use crate::check::Fault;
use crate::checker::Checker;
use crate::moves::{Arrival, Move, Place};
use crate::named::Named;
use crate::refusal::Refusal;
use crate::row::{Line, Row};
use arrayvec::ArrayVec;
use costs::Kind;
use std::marker::PhantomData;

// The size, M modes and T moments, and at most 128 rows and 128 lines, whose costs are of the kind K.
#[derive(Drop)]
pub struct Tables<K: Kind> {
    pub(crate) modes: u8,
    pub(crate) moments: u8,
    pub(crate) rows: ArrayVec<Row, MOST_ROWS>,
    pub(crate) lines: ArrayVec<Line, MOST_LINES>,
    pub(crate) kind: PhantomData<K>,
    ghost sound: { Sound K.meaning (content modes moments rows.items lines.items) },
}

impl<K: Kind> Tables<K> {
    ghost use Rattle.std.specs.Prelude.{◌≡◌, ◌≢◌, ℕ, ◌*◌, ◌^◌, ◌<◌, ◌≤◌, [], length};
    ghost use Rattle.std.specs.List.{slice_get};
    ghost use Rattle.costs.specs.Meaning.{Cost};
    ghost use Rattle.board.specs.Calls.{with_size, with_row, with_line, with_row_cost, with_line_cost, without_lines};
    ghost use Rattle.board.specs.Content.{new, SoundRow, SoundLine};
    ghost use Rattle.board.specs.Held.{held};
    ghost use Rattle.board.specs.Logs.{pair_of};
    ghost use Rattle.board.specs.Moves.{move_row, place_number};
    ghost use Rattle.board.specs.Arrivals.{named, arrival_on};
    ghost use Rattle.board.specs.Checks.{check_answer};
    ghost use Rattle.board.specs.Accepted.{AcceptsReadings};
    ghost use Rattle.board.specs.Faults.{RefusesFaults};

    // One mode, one moment, no row and no line.
    pub(crate) fn new() -> Tables<K>
        ensures { held result ≡ new }
    {
        Tables {
            modes: 1,
            moments: 1,
            rows: ArrayVec::new(),
            lines: ArrayVec::new(),
            kind: PhantomData,
        }
    }

    // Sets the size, where no row and no line is held.
    pub(crate) fn set_size(&mut self, modes: u8, moments: u8)
        requires no_rows { (held self.old).rows ≡ [] }
        requires no_lines { (held self.old).lines ≡ [] }
        requires some { 0 < modes * moments }
        requires few { modes * moments ≤ MOST_PLACES }
        ensures { held self.new ≡ with_size (held self.old) modes moments }
    {
        self.modes = modes;
        self.moments = moments;
    }

    // Puts a sound row last.
    pub(crate) fn push_row(&mut self, row: Row)
        requires room { length (held self.old).rows < MOST_ROWS }
        requires sound { SoundRow K.meaning (held self.old) row }
        ensures { held self.new ≡ with_row (held self.old) row }
    {
        self.rows.push(row);
    }

    // Puts a sound line last.
    pub(crate) fn push_line(&mut self, line: Line)
        requires room { length (held self.old).lines < MOST_LINES }
        requires sound { SoundLine K.meaning (held self.old) line }
        ensures { held self.new ≡ with_line (held self.old) line }
    {
        self.lines.push(line);
    }

    // Sets the cost of row n. Every other row stays as it was.
    pub(crate) fn set_row_cost(&mut self, n: usize, cost: u32)
        requires there { n < length (held self.old).rows }
        requires price { Cost K.meaning cost }
        ensures set { held self.new ≡ with_row_cost (held self.old) n cost }
        ensures others { (i : ℕ) → i ≢ n → slice_get (held self.new).rows i ≡ slice_get (held self.old).rows i }
    {
        self.rows[n].set_cost(cost);
    }

    // Sets the cost of line n. Every other line stays as it was.
    pub(crate) fn set_line_cost(&mut self, n: usize, cost: u32)
        requires there { n < length (held self.old).lines }
        requires price { Cost K.meaning cost }
        ensures set { held self.new ≡ with_line_cost (held self.old) n cost }
        ensures others { (i : ℕ) → i ≢ n → slice_get (held self.new).lines i ≡ slice_get (held self.old).lines i }
    {
        self.lines[n].set_cost(cost);
    }

    // Drops all lines.
    pub(crate) fn clear_lines(&mut self)
        ensures { held self.new ≡ without_lines (held self.old) }
    {
        self.lines.clear();
    }

    // Row n, if it is held.
    pub(crate) fn row(&self, n: u8) -> Option<Row>
        ensures { result ≡ move_row (held self.now) n }
    {
        self.rows.get(n as usize).copied()
    }

    // Line n, if it is held.
    pub(crate) fn line(&self, n: u8) -> Option<Line>
        ensures { result ≡ slice_get (held self.now).lines n }
    {
        self.lines.get(n as usize).copied()
    }

    // The number of a place.
    pub(crate) fn place_number(&self, place: Place) -> usize
        ensures number { result ≡ place_number (held self.now) place }
        ensures small { result < 2 ^ 16 }
    {
        place.0 as usize * self.moments as usize + place.1 as usize
    }

    // The place that has the number.
    pub(crate) fn place(&self, number: usize) -> Place
        requires { number < 2 ^ 8 }
        ensures number { place_number (held self.now) result ≡ number }
        ensures moment { result.1 < (held self.now).moments }
    {
        let moments = self.moments as usize;
        ((number / moments) as u8, (number % moments) as u8)
    }

    // The number of a pair of places.
    pub(crate) fn pair(&self, from: Place, to: Place) -> usize
        ensures { result ≡ pair_of (held self.now) from to }
    {
        self.place_number(from) * MOST_PLACES + self.place_number(to)
    }

    // What the move names: nothing where a row or line is not held, there is a line where the row takes none, or none
    // of the row's event.
    pub(crate) fn named(&self, v: Move) -> Option<Named>
        ensures { result ≡ named (held self.now) v }
    {
        let row = self.row(v.row)?;
        let Some(number) = v.line else {
            return if row.takes_line() {
                None
            } else {
                Some(Named { row, line: None })
            };
        };
        let line = self.line(number)?;
        if row.takes_line() && line.event == row.label {
            Some(Named {
                row,
                line: Some(line),
            })
        } else {
            None
        }
    }

    // Where the move leads from the place, if it starts there.
    pub(crate) fn arrival(&self, v: Move, place: Place) -> Option<Arrival>
        ensures { result ≡ arrival_on K.meaning (held self.now) v place }
    {
        let named = self.named(v)?;
        if named.starts_at(self.moments, place) {
            Some(named.arrival::<K>(place))
        } else {
            None
        }
    }

    // The cost of the complete reading that the moves are, or the first faulty move.
    pub(crate) fn check(&self, moves: &[u16]) -> Result<u32, Fault>
        ensures answer { result ≡ check_answer K.meaning (held self.now) moves.now }
        ensures readings { AcceptsReadings K.meaning (held self.now) moves.now result }
        ensures refusals { RefusesFaults K.meaning (held self.now) moves.now result }
    {
        let mut checker = Checker::new::<K>();
        for (index, number) in moves.iter().enumerate() {
            checker
                .take_move::<K>(self, *number)
                .map_err(move |refusal| Fault { index, refusal })?;
        }
        if !checker.has_ended() {
            return Err(Fault {
                index: moves.len(),
                refusal: Refusal::NoEnd,
            });
        }
        Ok(checker.total())
    }
}
