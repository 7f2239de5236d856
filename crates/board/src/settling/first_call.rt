// Finding the call that makes a goal.
ghost use Rattle.std.specs.Prelude.{◌≡◌, ℕ, ◌<◌, ◌≤◌, length, false, Some as ASome, None as ANone, slice_index_or};
ghost use Rattle.costs.specs.Meaning.{Cost};
ghost use Rattle.board.specs.declared.row.RowKind.TheVariants.{Open};
ghost use Rattle.board.specs.Held.{held};
ghost use Rattle.board.specs.Moves.{mode, move_row};
ghost use Rattle.board.specs.Logs.{pair_of};
ghost use Rattle.board.specs.Lowering.{LowerBound};
ghost use Rattle.board.specs.Minima.{Link, Led};
ghost use Rattle.board.specs.Minimizing.{LinksOf};
ghost use Rattle.board.specs.Winning.{GoalOn, FindsOf, IsCallAt, IsCallBy, IsCallOpenedBy, IsCall, TightOf, BracketRows, Serve, ServeIn};

use crate::bounds::MOST_ROWS;
use crate::log::Derivation;
use crate::row::{Row, RowKind};
use crate::settling::{Goal, Known};
use costs::Kind;

impl<K: Kind> Known<'_, K> {
    // The call by the open row a and the close row b, of these numbers, that opens at the moment, if it makes the goal.
    fn call_at(&self, goal: Goal, o: u8, a: Row, w: u8, b: Row, moment: u8) -> Option<Derivation>
        requires on { GoalOn (held self.now.tables.now) goal }
        requires rows { BracketRows (held self.now.tables.now) goal o w a b }
        requires moment { moment < (held self.now.tables.now).moments }
        ensures { FindsOf K.meaning self.now goal (IsCallAt o w moment) result }
    {
        let Some(i) = self.log.at(self.tables.pair(goal.from, (a.from, moment))) else {
            return None;
        };
        let inside = self.tables.pair((a.to, moment), (b.from, goal.to.1));
        let Some(j) = self.log.at(inside) else {
            return None;
        };
        let cost = K::join(
            K::join(self.log.records[i].cost, a.cost),
            self.log.records[j].cost,
        );
        if K::join(cost, b.cost) != goal.cost {
            return None;
        }
        Some(Derivation::Call(i as u16, j as u16, o, w, moment))
    }

    // The earliest call by the two rows that makes the goal.
    fn call_by(&self, goal: Goal, o: u8, a: Row, w: u8, b: Row, tight: &[u8]) -> Option<Derivation>
        requires on { GoalOn (held self.now.tables.now) goal }
        requires rows { BracketRows (held self.now.tables.now) goal o w a b }
        requires tight { TightOf K.meaning self.now goal tight.now }
        ensures { FindsOf K.meaning self.now goal (IsCallBy o w) result }
    {
        for n in 0..tight.len() {
            let place = self.tables.place(tight[n] as usize);
            if place.0 == a.from {
                if let Some(call) = self.call_at(goal, o, a, w, b, place.1) {
                    return Some(call);
                }
            }
        }
        None
    }

    // Whether a call that goes on from the record i by the open row a at the moment, and ends by one of these close rows, costs no
    // more than the goal.
    fn reaches_from(&self, goal: Goal, i: usize, o: u8, a: Row, moment: u8, closers: &[u8]) -> bool
        requires on { GoalOn (held self.now.tables.now) goal }
        requires cost { Cost K.meaning goal.cost }
        requires row { move_row (held self.now.tables.now) o ≡ ASome a }
        requires opens { a.kind ≡ Open }
        requires moment { moment < (held self.now.tables.now).moments }
        requires front { slice_index_or self.now.log.now.index (pair_of (held self.now.tables.now) goal.from (a.from, moment)) ANone ≡ ASome i }
        requires closers { ServeIn K.meaning (held self.now.tables.now) a.label (mode goal.to) closers.now }
        ensures { result ≡ false → (w : ℕ) → FindsOf K.meaning self.now goal (IsCallAt o w moment) ANone }
    {
        let front = K::join(self.log.records[i].cost, a.cost);
        for n in 0..closers.len() {
            if let Some(b) = self.tables.row(closers[n]) {
                let inside = self.tables.pair((a.to, moment), (b.from, goal.to.1));
                if let Some(j) = self.log.at(inside) {
                    let cost = K::join(K::join(front, self.log.records[j].cost), b.cost);
                    if K::no_dearer(cost, goal.cost) {
                        return true;
                    }
                }
            }
        }
        false
    }

    // Whether a call that the open row a opens, and one of these close rows ends, costs no more than the goal.
    fn reaches(&self, goal: Goal, o: u8, a: Row, closers: &[u8], tight: &[u8]) -> bool
        requires on { GoalOn (held self.now.tables.now) goal }
        requires cost { Cost K.meaning goal.cost }
        requires row { move_row (held self.now.tables.now) o ≡ ASome a }
        requires opens { a.kind ≡ Open }
        requires closers { ServeIn K.meaning (held self.now.tables.now) a.label (mode goal.to) closers.now }
        requires tight { TightOf K.meaning self.now goal tight.now }
        ensures { result ≡ false → FindsOf K.meaning self.now goal (IsCallOpenedBy o) ANone }
    {
        for n in 0..tight.len() {
            let place = self.tables.place(tight[n] as usize);
            if place.0 == a.from {
                if let Some(i) = self.log.at(self.tables.pair(goal.from, place)) {
                    if self.reaches_from(goal, i, o, a, place.1, closers) {
                        return true;
                    }
                }
            }
        }
        false
    }

    // The first call that the open row a opens and that makes the goal.
    fn call_opened(
        &self,
        goal: Goal,
        o: u8,
        a: Row,
        closers: &[u8],
        tight: &[u8],
    ) -> Option<Derivation>
        requires on { GoalOn (held self.now.tables.now) goal }
        requires cost { Cost K.meaning goal.cost }
        requires row { move_row (held self.now.tables.now) o ≡ ASome a }
        requires opens { a.kind ≡ Open }
        requires short { length closers.now ≤ MOST_ROWS }
        requires closers { Serve K.meaning (held self.now.tables.now) (mode goal.to) closers.now }
        requires tight { TightOf K.meaning self.now goal tight.now }
        ensures { FindsOf K.meaning self.now goal (IsCallOpenedBy o) result }
    {
        let own = self.closers_of(a.label, goal.to.0, closers);
        if !self.reaches(goal, o, a, &own, tight) {
            return None;
        }
        let rows = self.tables.rows.len() as u8;
        for w in 0..rows {
            if let Some(b) = self.tables.row(w) {
                if b.closes_to(a.label, goal.to.0) {
                    if let Some(call) = self.call_by(goal, o, a, w, b, tight) {
                        return Some(call);
                    }
                }
            }
        }
        None
    }

    // The first call of all that makes the goal.
    pub(crate) fn first_call(&self, goal: Goal, leads: &[bool], links: &[u32]) -> Option<Derivation>
        requires on { GoalOn (held self.now.tables.now) goal }
        requires cost { Cost K.meaning goal.cost }
        requires leads { length leads.now ≡ MOST_ROWS }
        requires led { Led K.meaning (held self.now.tables.now) leads.now }
        requires links { LinksOf K.meaning self.now links.now }
        requires links_bounds { LowerBound K.meaning (Link K.meaning (held self.now.tables.now) self.now.log.now) links.now }
        ensures { FindsOf K.meaning self.now goal IsCall result }
    {
        let closers = self.closers(goal.to.0, leads);
        let tight = self.tight(goal, links);
        let rows = self.tables.rows.len() as u8;
        for o in 0..rows {
            if let Some(a) = self.tables.row(o) {
                if let RowKind::Open = a.kind {
                    if let Some(call) = self.call_opened(goal, o, a, &closers, &tight) {
                        return Some(call);
                    }
                }
            }
        }
        None
    }
}
