// Which rows to look at for costs.
ghost use Rattle.std.specs.Prelude.{◌≡◌, length, Some as ASome};
ghost use Rattle.board.specs.Moves.{move_row};
ghost use Rattle.board.specs.Held.{held};
ghost use Rattle.board.specs.Minima.{StandsFor, Led};

use crate::bounds::MOST_ROWS;
use crate::row::Row;
use crate::tables::Tables;
use costs::Kind;

impl<K: Kind> Tables<K> {
    // The cheapest of the rows of the sort of r, which is row n; the last of them where some tie. So each row of a sort gives
    // the same.
    fn cheapest_like(&self, n: u8, r: Row) -> u8
        requires { move_row (held self.now) n ≡ ASome r }
        ensures { StandsFor K.meaning (held self.now) r result }
    {
        let mut found = n;
        let mut cost = r.cost;
        let rows = self.rows.len() as u8;
        for i in 0..rows {
            if let Some(other) = self.row(i) {
                if other.sort_like(&r) && K::no_dearer(other.cost, cost) {
                    found = i;
                    cost = other.cost;
                }
            }
        }
        found
    }

    // Marks one row of each sort, the cheapest, or the last of these.
    pub(crate) fn mark_leads(&self, leads: &mut [bool])
        requires { length leads.old ≡ MOST_ROWS }
        ensures led { Led K.meaning (held self.now) leads.new }
        ensures long { length leads.new ≡ MOST_ROWS }
    {
        let rows = self.rows.len() as u8;
        for n in 0..rows {
            if let Some(r) = self.row(n) {
                let found = self.cheapest_like(n, r);
                leads[found as usize] = true;
            }
        }
    }
}
