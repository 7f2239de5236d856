// Finding the step that makes a goal.
ghost use Rattle.std.specs.Prelude.{◌≡◌, ℕ, length, Some as ASome};
ghost use Rattle.board.specs.declared.row.Row.{Row as ARow};
ghost use Rattle.board.specs.declared.row.RowKind.TheVariants.{Plain as APlain};
ghost use Rattle.board.specs.declared.moves.Effect.TheVariants.{Quiet};
ghost use Rattle.board.specs.Held.{held};
ghost use Rattle.board.specs.Moves.{Place as APlace, moment, On, Transition, move_row};
ghost use Rattle.board.specs.Winning.{GoalOn, FindsOf, IsStepOf, IsStepBy, IsStep, Gathered, LineTo};

use crate::log::Derivation;
use crate::moves::{Effect, Move, Place};
use crate::row::{Row, RowKind};
use crate::settling::{Goal, Known};
use costs::Kind;

impl<K: Kind> Known<'_, K> {
    // The step by the move from the place, from where alone it can lead to where the goal ends.
    fn step_from(&self, goal: Goal, v: Move, place: Place) -> Option<Derivation>
        requires on { GoalOn (held self.now.tables.now) goal }
        requires place { On (held self.now.tables.now) place }
        requires starts { (p : APlace) (k : ℕ) → Transition K.meaning (held self.now.tables.now) v p goal.to k Quiet → p ≡ place }
        ensures { FindsOf K.meaning self.now goal (IsStepOf v) result }
    {
        let Some(i) = self.log.at(self.tables.pair(goal.from, place)) else {
            return None;
        };
        let Some(h) = self.tables.arrival(v, place) else {
            return None;
        };
        let Effect::Quiet = h.effect else {
            return None;
        };
        if h.to != goal.to {
            return None;
        }
        if K::join(self.log.records[i].cost, h.cost) != goal.cost {
            return None;
        }
        Some(Derivation::Step(i as u16, v))
    }

    // The first step by the row r, which is plain, has this number and goes with a line, along one of these lines.
    fn step_along(&self, goal: Goal, row: u8, r: Row, lines: &[u8]) -> Option<Derivation>
        requires on { GoalOn (held self.now.tables.now) goal }
        requires row { move_row (held self.now.tables.now) row ≡ ASome r }
        requires timed { r.label ≡ 0 → ⊥ }
        requires plain { r.kind ≡ APlain }
        requires lines { Gathered (LineTo (held self.now.tables.now) (moment goal.to)) (length (held self.now.tables.now).lines) lines.now }
        ensures { FindsOf K.meaning self.now goal (IsStepBy row) result }
    {
        for n in 0..lines.len() {
            if let Some(line) = self.tables.line(lines[n]) {
                if line.event == r.label {
                    let v = Move {
                        row,
                        line: Some(lines[n]),
                    };
                    if let Some(step) = self.step_from(goal, v, (r.from, line.from)) {
                        return Some(step);
                    }
                }
            }
        }
        None
    }

    // The first step by the row.
    fn step_by(&self, goal: Goal, row: u8, lines: &[u8]) -> Option<Derivation>
        requires on { GoalOn (held self.now.tables.now) goal }
        requires lines { Gathered (LineTo (held self.now.tables.now) (moment goal.to)) (length (held self.now.tables.now).lines) lines.now }
        ensures { FindsOf K.meaning self.now goal (IsStepBy row) result }
    {
        let Some(r) = self.tables.row(row) else {
            return None;
        };
        if r.to != goal.to.0 {
            return None;
        }
        let RowKind::Plain = r.kind else {
            return None;
        };
        if r.label == 0 {
            self.step_from(goal, Move { row, line: None }, (r.from, goal.to.1))
        } else {
            self.step_along(goal, row, r, lines)
        }
    }

    // The first step of all.
    pub(crate) fn first_step(&self, goal: Goal) -> Option<Derivation>
        requires on { GoalOn (held self.now.tables.now) goal }
        ensures { FindsOf K.meaning self.now goal IsStep result }
    {
        let lines = self.lines_to(goal.to.1);
        let rows = self.tables.rows.len() as u8;
        for row in 0..rows {
            if let Some(step) = self.step_by(goal, row, &lines) {
                return Some(step);
            }
        }
        None
    }
}
