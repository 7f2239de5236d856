// Settling: the rounds, each of which settles the least candidate.
ghost use Rattle.board.specs.Held.{held};
ghost use Rattle.board.specs.Logs.{Book, Book-prop};

use crate::bounds::{MOST_PAIRS, MOST_PLACES, MOST_ROWS};
use crate::log::{Log, Record};
use crate::moves::Place;
use crate::tables::Tables;
use costs::Kind;

mod candidates;
mod first_call;
mod first_step;
mod leads;
mod links;
mod lists;
mod lower;
mod plain;
mod rounds;
mod winner;

pub(crate) use rounds::settled_log;

// The least costs of candidates, and of those for unsettled pairs that start at each place.
#[derive(Drop)]
pub(crate) struct Waiting {
    costs: [u32; MOST_PAIRS],
    least: [u32; MOST_PLACES],
}

// The least costs beside the log; the worst stands where there is none. Places and pairs go by their numbers.
//
// `links`, by two places: the cheapest move without brackets, or record between an open and a close move of one bracket.
// `waiting`, by two places: the cheapest candidate for the pair, a record and then a link; and by first place the cheapest of
// those whose pair is not settled.
// `leads`, by row: whether it is the one to look at for costs among the rows of its sort, the cheapest, or the last of these.
#[derive(Drop)]
pub(crate) struct Minima {
    links: [u32; MOST_PAIRS],
    waiting: Waiting,
    leads: [bool; MOST_ROWS],
}

// The tables and the log so far. (The least costs are lent apart from them, as they alone change. That a record is within
// the log stays a clause of what uses it, since a number is within one log only.)
#[derive(Drop)]
pub(crate) struct Known<'l, K: Kind> {
    tables: &'l Tables<K>,
    log: &'l Log,
    ghost book: { Book K.meaning (held tables.now) log.now } by { Book-prop _ _ _ },
}

// A pair of places, and the cost at which it is to be settled.
#[derive(Clone, Copy)]
pub(crate) struct Goal {
    from: Place,
    to: Place,
    cost: u32,
}

// Where an open row leads, at what cost, and its bracket.
#[derive(Clone, Copy)]
pub(crate) struct Way {
    to: Place,
    cost: u32,
    bracket: u8,
}
