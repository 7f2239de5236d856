// Why a line gives no command.
ghost use Rattle.std.specs.Prelude.{◌≡◌, Some, codes};
ghost use Rattle.script.specs.declared.error.ParseError.TheVariants.{Unreadable, OutOfMemory};
ghost use Rattle.std.proofs.Common.{rules};
ghost use Rattle.std.specs.Cmp.Rules.{comparing};
ghost use Rattle.script.specs.Errors.{parse_error_text};

use std::alloc::AllocError;
use std::error::Error;
use std::fmt;
use values::{ExactClone, ExactEq};

#[derive(Clone, Copy, Debug, PartialEq, Eq, Hash)]
pub enum ParseError {
    // it is no command, or its words are not as the command asks
    Unreadable,
    // memory did not suffice
    OutOfMemory,
}

impl fmt::Display for ParseError {
    ghost output = { λ e. Some (parse_error_text e) };

    ghost styled_output = { λ e _. Some (parse_error_text e) };

    fn fmt<W: fmt::Write>(&self, f: &mut fmt::Formatter<W>) -> fmt::Result {
        match self {
            ParseError::Unreadable => f.write_str("unreadable"),
            ParseError::OutOfMemory => f.write_str("out of memory"),
        }
    }
}

impl Error for ParseError {}

impl From<AllocError> for ParseError {
    ghost from_gives = { λ _ error. error ≡ OutOfMemory };

    fn from(_e: AllocError) -> ParseError {
        Self::OutOfMemory
    }
}

impl ExactClone for ParseError {
    ghost clone_is_same = { Prim.search rules };
}

impl ExactEq for ParseError {
    ghost equal_is_same = { Prim.search (comparing, rules) };
}
