// The refusals of what a stock is made from.
ghost use Rattle.std.specs.Prelude.{refl};
ghost use Rattle.fault.specs.declared.layer.Layer.TheVariants.{Parameters};
ghost use Rattle.fault.specs.Faults.{shape_report};
ghost use Rattle.std.proofs.Common.{rules};

use crate::layer::Layer;
use crate::report::Fault;
use thiserror::Error;

// Why a frame size or a bad-slot list is not made, and what an operator is told.
#[derive(Clone, Copy, PartialEq, Eq, Debug, Error)]
pub enum ShapeFault {
    #[error("a frame has 16 to 8208 bytes: choose such a length ({})", self.report())]
    FrameSize = 1,
    #[error("a bad-slot list holds 16 slots: replace a medium that has more ({})", self.report())]
    ListFull = 15,
}

impl Fault for ShapeFault {
    ghost tells = { shape_report };

    const LAYER: Layer = Layer::Parameters;

    ghost LAYER = { Parameters };

    ghost of_its_layer = { λ _. refl };

    ghost numbered = { Prim.search rules };

    fn number(&self) -> u8 {
        *self as u8
    }

    fn place(&self) -> u64 {
        0
    }
}
