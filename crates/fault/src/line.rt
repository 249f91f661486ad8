// The refusals of a listing and of a loading, and the reel's as a loading passes them up.
ghost use Rattle.std.specs.Prelude.{◌≡◌, refl};
ghost use Rattle.fault.specs.declared.layer.Layer.TheVariants.{Lines};
ghost use Rattle.fault.specs.declared.line.LineCause.TheVariants.{Reel};
ghost use Rattle.fault.specs.Faults.{line_report};
ghost use Rattle.std.proofs.Common.{rules};

use crate::layer::Layer;
use crate::reel::ReelFault;
use crate::report::Fault;
use std::fmt;
use thiserror::Error;

// Why a line is not loaded or not written, and what an operator is told: of a reel's fault what the reel says.
#[derive(Clone, Copy, PartialEq, Eq, Debug, Error)]
pub enum LineCause {
    #[error("cut short, too long, or without a line feed")]
    NotALine,
    #[error("not digits 0-9 and A-F with a space after the first eight")]
    NotDigits,
    #[error("the address is not above that of the line before")]
    NotAbove,
    #[error("the area has no room for it")]
    NoRoom,
    #[error(transparent)]
    Reel(ReelFault),
}

// A refusal of a line: the cause, with the reel's fault whole where it began there, and the line, counted from 1.
#[derive(Clone, Copy, PartialEq, Eq, Debug)]
pub struct LineFault {
    pub cause: LineCause,
    pub line: u64,
}

impl From<ReelFault> for LineCause {
    ghost from_gives = { λ e r. r ≡ Reel e };

    fn from(e: ReelFault) -> LineCause {
        LineCause::Reel(e)
    }
}

// The number is that of the lowest fault; layer and place are the line's own.
impl Fault for LineFault {
    ghost tells = { line_report };

    const LAYER: Layer = Layer::Lines;

    ghost LAYER = { Lines };

    ghost of_its_layer = { λ _. refl };

    ghost numbered = { Prim.search rules };

    fn number(&self) -> u8 {
        match self.cause {
            LineCause::NotALine => 11,
            LineCause::NotDigits => 12,
            LineCause::NotAbove => 13,
            LineCause::NoRoom => 14,
            LineCause::Reel(fault) => fault.number(),
        }
    }

    fn place(&self) -> u64 {
        self.line
    }
}

impl fmt::Display for LineFault {
    fn fmt<W: fmt::Write>(&self, f: &mut fmt::Formatter<W>) -> fmt::Result {
        let LineFault { cause, line } = self;
        let report = self.report();
        match cause {
            LineCause::Reel(_) => write!(f, "line {line}: {cause}; {report}"),
            _ => write!(f, "line {line}: {cause} ({report})"),
        }
    }
}

impl std::error::Error for LineFault {}
