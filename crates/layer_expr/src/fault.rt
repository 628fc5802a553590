//! What the readers of names and expressions refuse.
ghost use Rattle.std.specs.Prelude.{◌≡◌};
ghost use Rattle.fault_texts.specs.FaultText.{shown, IsBrief};
ghost use Rattle.layer_expr.specs.Fault.{code_of, text_of};
ghost use Rattle.layer_expr.specs.declared.fault.ExprFault.TheVariants.{OutOfMemory};

use fault_texts::{CommonFault, FaultText};
use std::alloc::AllocError;
use thiserror::Error;

/// Why a name or an expression is refused.
#[derive(Clone, Copy, Debug, PartialEq, Eq, Error)]
#[error("{}", self.text())]
pub enum ExprFault {
    /// The offset of the token that cannot come there, or the length of the text.
    ExprSyntax(usize),
    ExprTooLong,
    BadName,
    OutOfMemory,
}

impl ExprFault {
    /// The number under which the fault is printed: 7, 8, 9 or 40.
    pub fn code(&self) -> u8
        ensures { result ≡ code_of self.now }
    {
        match self {
            ExprFault::ExprSyntax(_) => 7,
            ExprFault::ExprTooLong => 8,
            ExprFault::BadName => 9,
            ExprFault::OutOfMemory => CommonFault::OutOfMemory.code(),
        }
    }

    /// The text that is printed after the number.
    pub fn text(&self) -> FaultText
        ensures text { shown result ≡ text_of self.now }
        ensures brief { IsBrief result }
    {
        match self {
            ExprFault::ExprSyntax(at) => FaultText::At("expression syntax at ", *at),
            ExprFault::ExprTooLong => FaultText::Plain("expression too long"),
            ExprFault::BadName => FaultText::Plain("bad name"),
            ExprFault::OutOfMemory => CommonFault::OutOfMemory.text(),
        }
    }
}

impl From<AllocError> for ExprFault {
    ghost from_gives = { λ _ e. e ≡ OutOfMemory };

    fn from(_e: AllocError) -> ExprFault {
        ExprFault::OutOfMemory
    }
}
