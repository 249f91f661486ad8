// The layers of the product.
ghost use Rattle.std.specs.Prelude.{◌≡◌};
ghost use Rattle.fault.specs.Layers.{layer_number};

// The layer in which a refusal stands, numbered 0 to 4 from the lowest up.
#[derive(Clone, Copy, PartialEq, Eq, Debug)]
pub enum Layer {
    // keys, frame sizes and bad-slot lists
    Parameters,
    Stock,
    Sealing,
    Reel,
    Lines,
}

impl Layer {
    pub fn number(self) -> u8
        ensures { result ≡ layer_number self }
    {
        self as u8
    }
}
