// Links by moves without brackets.
ghost use Rattle.std.specs.Prelude.{◌≡◌, ◌<◌, length};
ghost use Rattle.board.specs.Held.{held};
ghost use Rattle.board.specs.Lowering.{Attained, Lowered};
ghost use Rattle.board.specs.Minima.{PlainLink, PlainlyFrom, PlainlyBy};

use crate::bounds::MOST_PAIRS;
use crate::moves::{Effect, Move, Place};
use crate::settling::lower::lower;
use crate::tables::Tables;
use costs::Kind;

impl<K: Kind> Tables<K> {
    // Lowers the link that the move makes from the place, if it starts there and has no bracket.
    fn link_from(&self, v: Move, place: Place, links: &mut [u32])
        requires long { length links.old ≡ MOST_PAIRS }
        requires ok { Attained K.meaning (PlainLink K.meaning (held self.now)) links.old }
        ensures { Lowered K.meaning (PlainLink K.meaning (held self.now)) links.old links.new (PlainlyFrom K.meaning (held self.now) v place) }
    {
        if let Some(h) = self.arrival(v, place) {
            if let Effect::Quiet = h.effect {
                lower::<K>(links, self.pair(place, h.to), h.cost);
            }
        }
    }

    // Lowers the links that the row makes, alone and with each line.
    fn links_by(&self, row: u8, links: &mut [u32])
        requires long { length links.old ≡ MOST_PAIRS }
        requires ok { Attained K.meaning (PlainLink K.meaning (held self.now)) links.old }
        ensures { Lowered K.meaning (PlainLink K.meaning (held self.now)) links.old links.new (PlainlyBy K.meaning (held self.now) row) }
    {
        let Some(r) = self.row(row) else {
            return;
        };
        for moment in 0..self.moments {
            self.link_from(Move { row, line: None }, (r.from, moment), links);
        }
        let lines = self.lines.len() as u8;
        for number in 0..lines {
            if let Some(line) = self.line(number) {
                let v = Move {
                    row,
                    line: Some(number),
                };
                self.link_from(v, (r.from, line.from), links);
            }
        }
    }

    // Lowers the links by all moves without brackets.
    pub(crate) fn add_links(&self, links: &mut [u32])
        requires long { length links.old ≡ MOST_PAIRS }
        requires ok { Attained K.meaning (PlainLink K.meaning (held self.now)) links.old }
        ensures { Lowered K.meaning (PlainLink K.meaning (held self.now)) links.old links.new (PlainLink K.meaning (held self.now)) }
    {
        let rows = self.rows.len() as u8;
        for row in 0..rows {
            self.links_by(row, links);
        }
    }
}
