// The least costs of links, and of the candidates that follow them.
ghost use Rattle.std.specs.Prelude.{◌≡◌, ◌⊎◌, ◌+◌, ◌*◌, ◌<◌, true, false, length, slice_index_or};
ghost use Rattle.board.specs.declared.moves.Effect.TheVariants.{Opens};
ghost use Rattle.board.specs.Moves.{Transition};
ghost use Rattle.board.specs.Settling.{bare};
ghost use Rattle.board.specs.Held.{held};
ghost use Rattle.board.specs.Logs.{numbered};
ghost use Rattle.board.specs.Lowering.{Just, Among};
ghost use Rattle.board.specs.Minima.{OpensWay, Link, Followed, FollowedFrom, BracketedBy, BracketedOn, BracketedIn};
ghost use Rattle.board.specs.Minimizing.{LinksOf, LinkedOf, LinksLower, WaitingOf, WaitingLower};

use crate::bounds::{MOST_PLACES, MOST_ROWS};
use crate::moves::{Effect, Move, Place};
use crate::settling::lower::lower;
use crate::settling::{Known, Waiting, Way};
use crate::tables::Tables;
use costs::Kind;

// Where an open row leads from a place.
fn opens<K: Kind>(t: &Tables<K>, row: u8, place: Place) -> Option<Way>
    ensures { OpensWay K.meaning (held t.now) row place result }
{
    let h = t.arrival(Move { row, line: None }, place)?;
    let Effect::Opens(bracket) = h.effect else {
        return None;
    };
    Some(Way {
        to: h.to,
        cost: h.cost,
        bracket,
    })
}

impl<K: Kind> Known<'_, K> {
    // Lowers what waits by the record i with each link behind it.
    pub(crate) fn follow(&self, i: usize, links: &[u32], waiting: &mut Waiting)
        requires within { i < self.now.log.now.count }
        requires links { LinksOf K.meaning self.now links.now }
        requires ok { WaitingOf K.meaning self.now waiting.old }
        ensures { WaitingLower K.meaning self.now waiting.old waiting.new (λ m c l. Followed m c links.now (numbered l i)) }
    {
        let a = self.log.records[i];
        let s = self.tables.place_number(a.from);
        let r = self.tables.place_number(a.to);
        for q in 0..MOST_PLACES {
            self.wait(s, q, K::join(a.cost, links[r * MOST_PLACES + q]), waiting);
        }
    }

    // Lowers what waits by each record to the place numbered r with a link at this cost behind it, to the place numbered q.
    fn follow_to(&self, r: usize, q: usize, cost: u32, waiting: &mut Waiting)
        requires from { r < MOST_PLACES }
        requires to { q < MOST_PLACES }
        requires link { (cost ≡ K.meaning.worst) ⊎ Link K.meaning (held self.now.tables.now) self.now.log.now (r * MOST_PLACES + q) cost }
        requires ok { WaitingOf K.meaning self.now waiting.old }
        ensures { WaitingLower K.meaning self.now waiting.old waiting.new (λ m c l. Among (FollowedFrom m l r q cost) MOST_PLACES) }
    {
        for s in 0..MOST_PLACES {
            if let Some(i) = self.log.at(s * MOST_PLACES + r) {
                let total = K::join(self.log.records[i].cost, cost);
                self.wait(s, q, total, waiting);
            }
        }
    }

    // Lowers the link between the places numbered r and q to this cost, and what waits, where it is cheaper.
    fn link(&self, r: usize, q: usize, cost: u32, links: &mut [u32], waiting: &mut Waiting)
        requires from { r < MOST_PLACES }
        requires to { q < MOST_PLACES }
        requires link { (cost ≡ K.meaning.worst) ⊎ Link K.meaning (held self.now.tables.now) self.now.log.now (r * MOST_PLACES + q) cost }
        requires ok { LinkedOf K.meaning self.now links.old waiting.old }
        ensures ok { LinkedOf K.meaning self.now links.new waiting.new }
        ensures lower { LinksLower K.meaning self.now links.old links.new (λ m c l. Just (r * MOST_PLACES + q) cost) }
    {
        if lower::<K>(links, r * MOST_PLACES + q, cost) {
            self.follow_to(r, q, cost, waiting);
        }
    }

    // Lowers the link by the open row o, the record j and the close row w, if they follow on. The open row leads to the record
    // from the place, by this way.
    fn bracket_by(
        &self,
        j: usize,
        o: u8,
        place: Place,
        way: Way,
        w: u8,
        links: &mut [u32],
        waiting: &mut Waiting,
    )
        requires within { j < self.now.log.now.count }
        requires opens { Transition K.meaning (held self.now.tables.now) (bare o) place (numbered self.now.log.now j).from way.cost (Opens way.bracket) }
        requires ok { LinkedOf K.meaning self.now links.old waiting.old }
        ensures ok { LinkedOf K.meaning self.now links.new waiting.new }
        ensures lower { LinksLower K.meaning self.now links.old links.new (λ m c l. BracketedBy m c (numbered l j) o w) }
    {
        let b = self.log.records[j];
        let Some(close) = self.tables.row(w) else {
            return;
        };
        if !close.closes_from(way.bracket, b.to.0) {
            return;
        }
        let r = self.tables.place_number(place);
        let q = self.tables.place_number((close.to, b.to.1));
        let cost = K::join(way.cost, K::join(b.cost, close.cost));
        self.link(r, q, cost, links, waiting);
    }

    // Lowers the links by the open row o, the record j and each marked close row.
    fn bracket_on(&self, j: usize, o: u8, leads: &[bool], links: &mut [u32], waiting: &mut Waiting)
        requires within { j < self.now.log.now.count }
        requires leads { length leads.now ≡ MOST_ROWS }
        requires marked { slice_index_or leads.now o false ≡ true }
        requires ok { LinkedOf K.meaning self.now links.old waiting.old }
        ensures ok { LinkedOf K.meaning self.now links.new waiting.new }
        ensures lower { LinksLower K.meaning self.now links.old links.new (λ m c l. BracketedOn m c leads.now (numbered l j) o) }
    {
        let from = self.log.records[j].from;
        let Some(open) = self.tables.row(o) else {
            return;
        };
        if open.to != from.0 {
            return;
        }
        let place = (open.from, from.1);
        let Some(way) = opens(self.tables, o, place) else {
            return;
        };
        let rows = self.tables.rows.len() as u8;
        for w in 0..rows {
            if leads[w as usize] {
                self.bracket_by(j, o, place, way, w, links, waiting);
            }
        }
    }

    // Lowers the links by the record j and any marked rows before and behind it.
    pub(crate) fn bracket(&self, j: usize, leads: &[bool], links: &mut [u32], waiting: &mut Waiting)
        requires within { j < self.now.log.now.count }
        requires leads { length leads.now ≡ MOST_ROWS }
        requires ok { LinkedOf K.meaning self.now links.old waiting.old }
        ensures ok { LinkedOf K.meaning self.now links.new waiting.new }
        ensures lower { LinksLower K.meaning self.now links.old links.new (λ m c l. BracketedIn m c leads.now (numbered l j)) }
    {
        let rows = self.tables.rows.len() as u8;
        for o in 0..rows {
            if leads[o as usize] {
                self.bracket_on(j, o, leads, links, waiting);
            }
        }
    }
}
