// Settling, record by record.
ghost use Rattle.std.specs.Prelude.{◌≡◌, ◌+◌, [], ◌∷◌, None as ANone, slice_index_or};
ghost use Rattle.board.specs.Held.{held};
ghost use Rattle.board.specs.Settling.{SettledLog};
ghost use Rattle.board.specs.Logged.{record_of, records};
ghost use Rattle.board.specs.Logs.{Kept, Book, Reached, RoundAdded, Refers, pair_of};
ghost use Rattle.board.specs.Minima.{SettlingInvariant};
ghost use Rattle.board.specs.Winning.{LeastPair};

use crate::bounds::{MOST_PAIRS, MOST_PLACES, MOST_ROWS};
use crate::log::{Derivation, Log, Record};
use crate::settling::candidates::least_pair;
use crate::settling::{Goal, Known, Minima, Waiting};
use crate::tables::Tables;
use costs::Kind;

// The log so far and the least costs. The tables are lent to each call. (What holds of both together stays a clause, `state`,
// of the methods: it holds data that the next call needs, and a ghost field must be a proposition, or be squashed into one
// that gives no data back.)
#[derive(Drop)]
pub(crate) struct Settling {
    log: Log,
    minima: Minima,
}

impl Settling {
    // Nothing settled: links by moves without brackets only, and the rows that lead.
    fn empty<K: Kind>(tables: &Tables<K>) -> Settling
        ensures state { SettlingInvariant K.meaning (held tables.now) result.log result.minima }
        ensures records { records result.log ≡ [] }
    {
        let mut settling = Settling {
            log: Log::new(),
            minima: Minima {
                links: [K::worst(); MOST_PAIRS],
                waiting: Waiting {
                    costs: [K::worst(); MOST_PAIRS],
                    least: [K::worst(); MOST_PLACES],
                },
                leads: [false; MOST_ROWS],
            },
        };
        tables.add_links(&mut settling.minima.links);
        tables.mark_leads(&mut settling.minima.leads);
        settling
    }

    // Settles a record, finds the least from its first place anew, and lowers what it makes cheaper: candidates that go on from
    // it, and links that it is inside.
    fn settle<K: Kind>(&mut self, tables: &Tables<K>, r: Record)
        requires state { SettlingInvariant K.meaning (held tables.now) self.old.log self.old.minima }
        requires fresh { slice_index_or self.old.log.index (pair_of (held tables.now) r.from r.to) ANone ≡ ANone }
        requires kept { Kept K.meaning (held tables.now) r }
        requires refers { Refers self.old.log.count r.derivation }
        ensures state { SettlingInvariant K.meaning (held tables.now) self.new.log self.new.minima }
        ensures more { records self.new.log ≡ record_of (records self.old.log) r ∷ records self.old.log }
        ensures count { self.new.log.count ≡ self.old.log.count + 1 }
    {
        let n = self.log.count;
        let moves = self.log.length_of(r.derivation);
        self.log.push(tables.pair(r.from, r.to), r, moves);
        let known = Known {
            tables,
            log: &self.log,
        };
        let minima = &mut self.minima;
        known.renew(tables.place_number(r.from), &mut minima.waiting);
        known.follow(n, &minima.links, &mut minima.waiting);
        known.bracket(n, &minima.leads, &mut minima.links, &mut minima.waiting);
    }

    // Settles the diagonal, each place to itself, free.
    fn begin<K: Kind>(&mut self, tables: &Tables<K>)
        requires state { SettlingInvariant K.meaning (held tables.now) self.old.log self.old.minima }
        requires nothing { records self.old.log ≡ [] }
        ensures state { SettlingInvariant K.meaning (held tables.now) self.new.log self.new.minima }
        ensures reached { Reached K.meaning (held tables.now) (records self.new.log) }
    {
        for mode in 0..tables.modes {
            for moment in 0..tables.moments {
                let place = (mode, moment);
                let start = Record {
                    from: place,
                    to: place,
                    cost: K::free(),
                    derivation: Derivation::Start,
                };
                self.settle(tables, start);
            }
        }
    }

    // Makes one round: settles the pair, for which the least candidate below the worst waits.
    fn round<K: Kind>(&mut self, tables: &Tables<K>, pair: usize)
        requires state { SettlingInvariant K.meaning (held tables.now) self.old.log self.old.minima }
        requires reached { Reached K.meaning (held tables.now) (records self.old.log) }
        requires least { LeastPair K.meaning self.old.log self.old.minima.waiting.costs MOST_PAIRS pair }
        ensures state { SettlingInvariant K.meaning (held tables.now) self.new.log self.new.minima }
        ensures reached { Reached K.meaning (held tables.now) (records self.new.log) }
        ensures added { RoundAdded K.meaning (held tables.now) self.old.log self.new.log }
    {
        let minima = &self.minima;
        let goal = Goal {
            from: tables.place(pair / MOST_PLACES),
            to: tables.place(pair % MOST_PLACES),
            cost: minima.waiting.costs[pair],
        };
        let known = Known {
            tables,
            log: &self.log,
        };
        let derivation = known.winner(goal, &minima.leads, &minima.links);
        let r = Record {
            from: goal.from,
            to: goal.to,
            cost: goal.cost,
            derivation,
        };
        self.settle(tables, r);
    }
}

// The settled log of the tables.
pub(crate) fn settled_log<K: Kind>(tables: &Tables<K>) -> Log
    ensures book { Book K.meaning (held tables.now) result }
    ensures settled { SettledLog K.meaning (held tables.now) (records result) }
{
    let mut settling = Settling::empty(tables);
    settling.begin(tables);
    'rounds: loop {
        let Some(pair) = least_pair::<K>(&settling.log, &settling.minima.waiting) else {
            break 'rounds;
        };
        settling.round(tables, pair);
    }
    settling.log
}
