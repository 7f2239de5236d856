// Joining a list of costs.
ghost use Rattle.std.specs.Prelude.{◌≡◌, ◌<◌, length, IfErr};
ghost use Rattle.costs.specs.Lists.{join_answer, CutAnywhere};
ghost use Rattle.costs.specs.Examples.{JoiningExamples};

use crate::kind::Kind;

// The numbers joined from first to last (free where there are none), or the index of the first that is no cost.
#[tactic(auto, using(crate::proofs::Joining::cut_anywhere, crate::proofs::Joining::worked))]
pub fn join_all<K: Kind>(xs: &[u32]) -> Result<u32, usize>
    ensures answer { result ≡ join_answer K.meaning xs.now }
    ensures within { IfErr result (λ i. i < length xs.now) }
    ensures cut { CutAnywhere K.meaning }
    ensures examples { JoiningExamples }
{
    let mut total = K::free();
    for (i, x) in xs.iter().enumerate() {
        if !K::is_cost(*x) {
            return Err(i);
        }
        total = K::join(total, *x);
    }
    Ok(total)
}
