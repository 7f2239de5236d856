// Rank: breaches before seconds.
ghost use Rattle.std.specs.Prelude.{◌≡◌};
ghost use Rattle.costs.specs.Kinds.{rank};
ghost use Rattle.std.proofs.Common.{rules};

use crate::kind::Kind;
use values::ExactClone;

// The upper 12 bits count breaches, the lower 20 bits are seconds. The costs are the worst and all numbers with at
// most 4,094 breaches; joining adds both parts, breaches above 4,094 make the worst, and seconds stop at 1,048,575.
#[derive(Clone, Copy)]
pub struct Rank;

// what one breach adds to the number
const BREACH: u32 = 1_048_576;

impl Kind for Rank {
    ghost meaning = { rank };

    ghost lawful = { Prim.search rules };

    fn is_cost(x: u32) -> bool {
        x / BREACH <= 4_094 || x == u32::MAX
    }

    fn no_dearer(a: u32, b: u32) -> bool {
        a <= b
    }

    fn join(a: u32, b: u32) -> u32 {
        let breaches = a / BREACH + b / BREACH;
        if breaches > 4_094 {
            return u32::MAX;
        }
        let seconds = a % BREACH + b % BREACH;
        breaches * BREACH + seconds.min(1_048_575)
    }

    fn free() -> u32 {
        0
    }

    fn worst() -> u32 {
        u32::MAX
    }

    fn letter() -> char {
        'R'
    }

    fn scaled() -> bool {
        false
    }
}

impl ExactClone for Rank {
    ghost clone_is_same = { Prim.search rules };
}
