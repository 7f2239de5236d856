// What the check answers of a list with a faulty move.
ghost use Rattle.std.specs.Prelude.{Some};
ghost use Rattle.std.proofs.Common.{rules};
ghost use Rattle.std.specs.Cmp.Rules.{comparing};
ghost use Rattle.board.specs.Refusals.{fault_text};

use crate::refusal::Refusal;
use std::error::Error;
use std::fmt;
use values::{ExactClone, ExactEq, write_plain};

// A faulty move of a list: its index, and why.
#[derive(Clone, Copy, Debug, PartialEq, Eq)]
pub struct Fault {
    pub index: usize,
    pub refusal: Refusal,
}

// As programs tell it, under any options: the refusal and the index.
impl fmt::Display for Fault {
    ghost output = { λ e. Some (fault_text e) };

    ghost styled_output = { λ e _. Some (fault_text e) };

    fn fmt<W: fmt::Write>(&self, f: &mut fmt::Formatter<W>) -> fmt::Result {
        write_plain(f, format_args!("{} at {}", self.refusal, self.index))
    }
}

impl Error for Fault {}

impl ExactClone for Fault {
    ghost clone_is_same = { Prim.search rules };
}

impl ExactEq for Fault {
    ghost equal_is_same = { Prim.search (comparing, rules) };
}
