// The refusals of a reel, and the stock's as a reel passes them up.
ghost use Rattle.std.specs.Prelude.{◌≡◌, refl};
ghost use Rattle.fault.specs.declared.layer.Layer.TheVariants.{Reel};
ghost use Rattle.fault.specs.Faults.{passed_up, reel_report};
ghost use Rattle.std.proofs.Common.{rules};

use crate::layer::Layer;
use crate::report::Fault;
use crate::stock::StockFault;
use std::fmt;
use thiserror::Error;

// Why a reel turns a call away, and what an operator is told: of a stock's fault what the stock says.
#[derive(Clone, Copy, PartialEq, Eq, Debug, Error)]
pub enum ReelCause {
    #[error("frames of this length are not 2 to 513 whole blocks: use the other suite")]
    NotBlocks,
    #[error("there is no such address: choose one below the number of slots")]
    NoAddress,
    #[error("the row or area is not of the right length")]
    WrongArea,
    #[error(transparent)]
    Stock(StockFault),
}

// A refusal of a reel: the cause, with the stock's fault whole where it began there, and the address of the call.
#[derive(Clone, Copy, PartialEq, Eq, Debug)]
pub struct ReelFault {
    pub cause: ReelCause,
    pub address: u64,
}

// An address is the slot of the same number.
impl From<StockFault> for ReelFault {
    ghost from_gives = { λ e r. r ≡ passed_up e };

    fn from(e: StockFault) -> ReelFault {
        ReelFault {
            cause: ReelCause::Stock(e),
            address: e.slot,
        }
    }
}

// The number is that of the lowest fault; layer and place are the reel's own.
impl Fault for ReelFault {
    ghost tells = { reel_report };

    const LAYER: Layer = Layer::Reel;

    ghost LAYER = { Reel };

    ghost of_its_layer = { λ _. refl };

    ghost numbered = { Prim.search rules };

    fn number(&self) -> u8 {
        match self.cause {
            ReelCause::NotBlocks => 5,
            ReelCause::NoAddress => 6,
            ReelCause::WrongArea => 7,
            ReelCause::Stock(fault) => fault.number(),
        }
    }

    fn place(&self) -> u64 {
        self.address
    }
}

impl fmt::Display for ReelFault {
    fn fmt<W: fmt::Write>(&self, f: &mut fmt::Formatter<W>) -> fmt::Result {
        let ReelFault { cause, address } = self;
        let report = self.report();
        match cause {
            ReelCause::Stock(_) => write!(f, "address {address}: {cause}; {report}"),
            _ => write!(f, "address {address}: {cause} ({report})"),
        }
    }
}

impl std::error::Error for ReelFault {}
