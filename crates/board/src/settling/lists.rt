// Which lines, places and close rows may serve a goal.
ghost use Rattle.std.specs.Prelude.{◌≡◌, ◌≤◌, length};
ghost use Rattle.costs.specs.Meaning.{Cost};
ghost use Rattle.board.specs.Held.{held};
ghost use Rattle.board.specs.Lowering.{LowerBound};
ghost use Rattle.board.specs.Minima.{Link, Led};
ghost use Rattle.board.specs.Minimizing.{LinksOf};
ghost use Rattle.board.specs.Winning.{GoalOn, Gathered, LineTo, TightOf, Serve, ServeIn};

use crate::bounds::{MOST_LINES, MOST_PLACES, MOST_ROWS};
use crate::settling::{Goal, Known};
use arrayvec::ArrayVec;
use costs::Kind;

impl<K: Kind> Known<'_, K> {
    // The lines that enter the moment, in order.
    pub(crate) fn lines_to(&self, moment: u8) -> ArrayVec<u8, MOST_LINES>
        ensures { Gathered (LineTo (held self.now.tables.now) moment) (length (held self.now.tables.now).lines) result.items }
    {
        let mut found = ArrayVec::new();
        let lines = self.tables.lines.len() as u8;
        for number in 0..lines {
            if let Some(line) = self.tables.line(number) {
                if line.to == moment {
                    found.push(number);
                }
            }
        }
        found
    }

    // The places, by their numbers and in order, from which a link may make the goal.
    pub(crate) fn tight(&self, goal: Goal, links: &[u32]) -> ArrayVec<u8, MOST_PLACES>
        requires on { GoalOn (held self.now.tables.now) goal }
        requires cost { Cost K.meaning goal.cost }
        requires links { LinksOf K.meaning self.now links.now }
        requires bounds { LowerBound K.meaning (Link K.meaning (held self.now.tables.now) self.now.log.now) links.now }
        ensures { TightOf K.meaning self.now goal result.items }
    {
        let mut found = ArrayVec::new();
        let s = self.tables.place_number(goal.from);
        let q = self.tables.place_number(goal.to);
        for r in 0..MOST_PLACES {
            if let Some(i) = self.log.at(s * MOST_PLACES + r) {
                let cost = K::join(self.log.records[i].cost, links[r * MOST_PLACES + q]);
                if K::no_dearer(cost, goal.cost) {
                    found.push(r as u8);
                }
            }
        }
        found
    }

    // The marked close rows that lead to the mode.
    pub(crate) fn closers(&self, mode: u8, leads: &[bool]) -> ArrayVec<u8, MOST_ROWS>
        requires long { length leads.now ≡ MOST_ROWS }
        requires led { Led K.meaning (held self.now.tables.now) leads.now }
        ensures serve { Serve K.meaning (held self.now.tables.now) mode result.items }
        ensures short { length result.items ≤ MOST_ROWS }
    {
        let mut found = ArrayVec::new();
        let rows = self.tables.rows.len() as u8;
        for w in 0..rows {
            if let Some(close) = self.tables.row(w) {
                if leads[w as usize] && close.is_close() && close.to == mode {
                    found.push(w);
                }
            }
        }
        found
    }

    // Those of the bracket among these close rows.
    pub(crate) fn closers_of(
        &self,
        bracket: u8,
        mode: u8,
        closers: &[u8],
    ) -> ArrayVec<u8, MOST_ROWS>
        requires short { length closers.now ≤ MOST_ROWS }
        requires serve { Serve K.meaning (held self.now.tables.now) mode closers.now }
        ensures { ServeIn K.meaning (held self.now.tables.now) bracket mode result.items }
    {
        let mut found = ArrayVec::new();
        for n in 0..closers.len() {
            if let Some(close) = self.tables.row(closers[n]) {
                if close.label == bracket {
                    found.push(closers[n]);
                }
            }
        }
        found
    }
}
