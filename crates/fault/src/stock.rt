// The refusals of a stock.
ghost use Rattle.std.specs.Prelude.{refl};
ghost use Rattle.fault.specs.declared.layer.Layer.TheVariants.{Stock};
ghost use Rattle.fault.specs.Faults.{stock_report};
ghost use Rattle.std.proofs.Common.{rules};

use crate::layer::Layer;
use crate::report::Fault;
use thiserror::Error;

// Why a stock turns a call away, and what an operator is told of the slot.
#[derive(Clone, Copy, PartialEq, Eq, Debug, Error)]
pub enum StockCause {
    #[error("does not exist: choose one below the number of slots")]
    NoSlot = 6,
    #[error("takes and gives rows of one frame: hand over as many bytes")]
    WrongLength = 7,
    #[error("is bad: use another")]
    BadSlot = 8,
    #[error("is blank: there is no frame to get")]
    BlankSlot = 9,
}

// A refusal of a stock: the cause, and the slot that the call was for.
#[derive(Clone, Copy, PartialEq, Eq, Debug, Error)]
#[error("slot {slot} {cause} ({})", self.report())]
pub struct StockFault {
    pub cause: StockCause,
    pub slot: u64,
}

impl Fault for StockFault {
    ghost tells = { stock_report };

    const LAYER: Layer = Layer::Stock;

    ghost LAYER = { Stock };

    ghost of_its_layer = { λ _. refl };

    ghost numbered = { Prim.search rules };

    fn number(&self) -> u8 {
        self.cause as u8
    }

    fn place(&self) -> u64 {
        self.slot
    }
}
