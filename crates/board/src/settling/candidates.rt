// The least costs of candidates.
ghost use Rattle.std.specs.Prelude.{◌≡◌, ◌≢◌, ◌⊎◌, ℕ, ◌+◌, ◌*◌, ◌<◌, length, slice_index};
ghost use Rattle.costs.specs.Meaning.{Cost};
ghost use Rattle.board.specs.Held.{held};
ghost use Rattle.board.specs.Lowering.{Just};
ghost use Rattle.board.specs.Minima.{CandidateAt, PlaceLeast, PlacesLeast};
ghost use Rattle.board.specs.Minimizing.{WaitingOf, WaitingLower};
ghost use Rattle.board.specs.Winning.{LeastFrom, LeastOf};

use crate::bounds::{MOST_PAIRS, MOST_PLACES};
use crate::log::Log;
use crate::settling::lower::lower;
use crate::settling::{Known, Waiting};
use costs::Kind;

impl<K: Kind> Known<'_, K> {
    // Lowers what waits for the places numbered s and q to this cost, which a candidate has.
    pub(crate) fn wait(&self, s: usize, q: usize, cost: u32, waiting: &mut Waiting)
        requires from { s < MOST_PLACES }
        requires to { q < MOST_PLACES }
        requires some { (cost ≡ K.meaning.worst) ⊎ CandidateAt K.meaning (held self.now.tables.now) self.now.log.now (s * MOST_PLACES + q) cost }
        requires ok { WaitingOf K.meaning self.now waiting.old }
        ensures { WaitingLower K.meaning self.now waiting.old waiting.new (λ m c l. Just (s * MOST_PLACES + q) cost) }
    {
        let p = s * MOST_PLACES + q;
        if lower::<K>(&mut waiting.costs, p, cost) {
            if self.log.at(p).is_none() {
                lower::<K>(&mut waiting.least, s, cost);
            }
        }
    }

    // The cheapest of the unsettled pairs from the place numbered s, found anew.
    pub(crate) fn renew(&self, s: usize, waiting: &mut Waiting)
        requires from { s < MOST_PLACES }
        requires long { length waiting.old.costs ≡ MOST_PAIRS }
        requires least_long { length waiting.old.least ≡ MOST_PLACES }
        requires costs { (p : ℕ) → p < MOST_PAIRS → Cost K.meaning (slice_index waiting.old.costs p) }
        requires others { (t : ℕ) → t < MOST_PLACES → t ≢ s → PlaceLeast K.meaning self.now.log.now waiting.old.costs t MOST_PLACES (slice_index waiting.old.least t) }
        ensures costs { waiting.new.costs ≡ waiting.old.costs }
        ensures places { PlacesLeast K.meaning self.now.log.now waiting.new }
    {
        let mut least = K::worst();
        for q in 0..MOST_PLACES {
            let p = s * MOST_PLACES + q;
            if self.log.at(p).is_none() && !K::no_dearer(least, waiting.costs[p]) {
                least = waiting.costs[p];
            }
        }
        waiting.least[s] = least;
    }
}

// The first place from which an unsettled pair costs least, below the worst.
fn least_from<K: Kind>(waiting: &Waiting) -> Option<usize>
    requires long { length waiting.now.least ≡ MOST_PLACES }
    requires costs { (s : ℕ) → s < MOST_PLACES → Cost K.meaning (slice_index waiting.now.least s) }
    ensures { LeastFrom K.meaning waiting.now.least MOST_PLACES result }
{
    let mut found = None;
    let mut cost = K::worst();
    for s in 0..MOST_PLACES {
        if !K::no_dearer(cost, waiting.least[s]) {
            found = Some(s);
            cost = waiting.least[s];
        }
    }
    found
}

// Of the unsettled pairs that of the least cost below the worst, the first where some tie.
pub(crate) fn least_pair<K: Kind>(log: &Log, waiting: &Waiting) -> Option<usize>
    requires long { length waiting.now.costs ≡ MOST_PAIRS }
    requires costs { (p : ℕ) → p < MOST_PAIRS → Cost K.meaning (slice_index waiting.now.costs p) }
    requires places { PlacesLeast K.meaning log.now waiting.now }
    ensures { LeastOf K.meaning log.now waiting.now.costs MOST_PAIRS result }
{
    let Some(s) = least_from::<K>(waiting) else {
        return None;
    };
    for q in 0..MOST_PLACES {
        let p = s * MOST_PLACES + q;
        if log.at(p).is_none() && K::no_dearer(waiting.costs[p], waiting.least[s]) {
            return Some(p);
        }
    }
    unreachable!()
}
