// Severity: joining takes the larger.
ghost use Rattle.std.specs.Prelude.{◌≡◌};
ghost use Rattle.costs.specs.Kinds.{severity};
ghost use Rattle.std.proofs.Common.{rules};

use crate::kind::Kind;
use values::ExactClone;

// Every number is a cost.
#[derive(Clone, Copy)]
pub struct Severity;

impl Kind for Severity {
    ghost meaning = { severity };

    ghost lawful = { Prim.search rules };

    fn is_cost(_x: u32) -> bool {
        true
    }

    fn no_dearer(a: u32, b: u32) -> bool {
        a <= b
    }

    fn join(a: u32, b: u32) -> u32 {
        a.max(b)
    }

    fn free() -> u32 {
        0
    }

    fn worst() -> u32 {
        u32::MAX
    }

    fn letter() -> char {
        'S'
    }

    fn scaled() -> bool {
        false
    }
}

impl ExactClone for Severity {
    ghost clone_is_same = { Prim.search rules };
}
