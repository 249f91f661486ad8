// The refusals of keys.
ghost use Rattle.std.specs.Prelude.{refl};
ghost use Rattle.fault.specs.declared.layer.Layer.TheVariants.{Parameters};
ghost use Rattle.fault.specs.Faults.{key_report};
ghost use Rattle.std.proofs.Common.{rules};

use crate::layer::Layer;
use crate::report::Fault;
use thiserror::Error;

// Why keys are not made of the bytes given, and what an operator is told.
#[derive(Clone, Copy, PartialEq, Eq, Debug, Error)]
pub enum KeyFault {
    #[error("the suite has no cipher keys of this length: hand over one that it has ({})", self.report())]
    CipherKeyLength = 2,
    #[error("a hash key is as long as a block of the suite: hand over as many bytes ({})", self.report())]
    HashKeyLength = 3,
    #[error("a hash key of zeros only is none: make another ({})", self.report())]
    ZeroHashKey = 4,
}

impl Fault for KeyFault {
    ghost tells = { key_report };

    const LAYER: Layer = Layer::Parameters;

    ghost LAYER = { Parameters };

    ghost of_its_layer = { λ _. refl };

    ghost numbered = { Prim.search rules };

    fn number(&self) -> u8 {
        *self as u8
    }

    fn place(&self) -> u64 {
        0
    }
}
