// A reading, and the better of two.
ghost use Rattle.std.specs.Prelude.{◌≡◌};
ghost use Rattle.board.specs.Computing.{better_by};

use costs::Kind;

// A reading by its end row, the number of the record before it, and its joined cost.
#[derive(Clone, Copy)]
pub(crate) struct Reading {
    pub row: u8,
    pub before: usize,
    pub cost: u32,
}

// The better of what was found and another, of which the former comes first where they tie; one that is no cheaper than
// the worst is none.
pub(crate) fn better<K: Kind>(found: Option<Reading>, other: Option<Reading>) -> Option<Reading>
    ensures { result ≡ better_by K.meaning (λ r. r.cost) found other }
{
    let Some(x) = other else {
        return found;
    };
    let limit = match found {
        Some(f) => f.cost,
        None => K::worst(),
    };
    if K::no_dearer(limit, x.cost) {
        found
    } else {
        Some(x)
    }
}
