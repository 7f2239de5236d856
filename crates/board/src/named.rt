// What a move names: whether it starts at a place, and where it leads.
ghost use Rattle.std.specs.Prelude.{◌≡◌};
ghost use Rattle.board.specs.Arrivals.{starts_at, arrival_by};

use crate::moves::{Arrival, Place};
use crate::row::{Line, Row};
use costs::Kind;

// A row that takes no line, or a row with a line of its event.
#[derive(Clone, Copy)]
pub(crate) struct Named {
    pub row: Row,
    pub line: Option<Line>,
}

impl Named {
    // Whether it starts at the place.
    pub(crate) fn starts_at(&self, moments: u8, place: Place) -> bool
        ensures { result ≡ starts_at moments self.now place }
    {
        place.0 == self.row.from
            && match self.line {
                None => place.1 < moments && self.row.timely(moments, place.1),
                Some(line) => place.1 == line.from,
            }
    }

    // Where it leads from the place, at what cost, and what it does to the brackets.
    pub(crate) fn arrival<K: Kind>(&self, place: Place) -> Arrival
        ensures { result ≡ arrival_by K.meaning self.now place }
    {
        let row = self.row;
        let (moment, cost) = match self.line {
            None => (place.1, row.cost),
            Some(line) => (line.to, K::join(row.cost, line.cost)),
        };
        Arrival {
            to: (row.to, moment),
            cost,
            effect: row.effect(),
        }
    }
}
