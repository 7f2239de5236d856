// Putting a cost where it is lower.
ghost use Rattle.std.specs.Prelude.{◌≡◌, ◌<◌, length, not, slice_index};
ghost use Rattle.board.specs.Lowering.{lowered};

use costs::Kind;

// Puts the cost at p where what stands there is dearer, and tells whether it was.
pub(crate) fn lower<K: Kind>(costs: &mut [u32], p: usize, cost: u32) -> bool
    requires { p < length costs.old }
    ensures after { costs.new ≡ lowered K.meaning costs.old p cost }
    ensures was { result ≡ not (K.meaning.no_dearer (slice_index costs.old p) cost) }
{
    if K::no_dearer(costs[p], cost) {
        return false;
    }
    costs[p] = cost;
    true
}
