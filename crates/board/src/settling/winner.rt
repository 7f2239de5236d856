// Finding the candidate of a pair once its cost is known.
ghost use Rattle.std.specs.Prelude.{◌≡◌, length};
ghost use Rattle.costs.specs.Meaning.{Cost};
ghost use Rattle.board.specs.Held.{held};
ghost use Rattle.board.specs.Settling.{Record as ARecord};
ghost use Rattle.board.specs.Lowering.{LowerBound};
ghost use Rattle.board.specs.Minima.{Link, Led};
ghost use Rattle.board.specs.Minimizing.{LinksOf};
ghost use Rattle.board.specs.Winning.{GoalOn, Makes, Wins, Any};

use crate::bounds::MOST_ROWS;
use crate::log::Derivation;
use crate::settling::{Goal, Known};
use costs::Kind;

impl<K: Kind> Known<'_, K> {
    // Of the candidates that make the goal the first in the order of ties: the first step, or else the first call.
    pub(crate) fn winner(&self, goal: Goal, leads: &[bool], links: &[u32]) -> Derivation
        requires on { GoalOn (held self.now.tables.now) goal }
        requires cost { Cost K.meaning goal.cost }
        requires leads { length leads.now ≡ MOST_ROWS }
        requires led { Led K.meaning (held self.now.tables.now) leads.now }
        requires links { LinksOf K.meaning self.now links.now }
        requires links_bounds { LowerBound K.meaning (Link K.meaning (held self.now.tables.now) self.now.log.now) links.now }
        requires some { (y : ARecord) × Makes K.meaning (held self.now.tables.now) self.now.log.now goal y }
        ensures { Wins K.meaning (held self.now.tables.now) self.now.log.now goal Any result }
    {
        if let Some(step) = self.first_step(goal) {
            return step;
        }
        let Some(call) = self.first_call(goal, leads, links) else {
            unreachable!()
        };
        call
    }
}
