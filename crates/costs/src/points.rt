// Points: joining adds.
ghost use Rattle.std.specs.Prelude.{◌≡◌};
ghost use Rattle.costs.specs.Kinds.{points};
ghost use Rattle.std.proofs.Common.{rules};

use crate::kind::Kind;
use values::ExactClone;

// Every number is a cost; a sum above 4,294,967,294 is the worst. The only kind that trust scales.
#[derive(Clone, Copy)]
pub struct Points;

impl Kind for Points {
    ghost meaning = { points };

    ghost lawful = { Prim.search rules };

    fn is_cost(_x: u32) -> bool {
        true
    }

    fn no_dearer(a: u32, b: u32) -> bool {
        a <= b
    }

    fn join(a: u32, b: u32) -> u32 {
        a.saturating_add(b)
    }

    fn free() -> u32 {
        0
    }

    fn worst() -> u32 {
        u32::MAX
    }

    fn letter() -> char {
        'P'
    }

    fn scaled() -> bool {
        true
    }
}

impl ExactClone for Points {
    ghost clone_is_same = { Prim.search rules };
}
