// What every refusal tells.
ghost use Rattle.std.specs.Prelude.{◌≡◌, ◌≤◌, MatchResult, Some, None};
ghost use Rattle.fault.specs.declared.layer.Layer.{Layer};
ghost use Rattle.fault.specs.declared.report.Report.{Report};

use crate::layer::Layer;
use std::fmt;

// The number of a refusal, its layer, and its place there: a slot, an address, a line counted from 1, or 0 among parameters.
// A layer that passes a fault up adds its own layer and place; the number is the lowest fault's.
#[derive(Clone, Copy, PartialEq, Eq, Debug)]
pub struct Report {
    pub number: u8,
    pub layer: Layer,
    pub place: u64,
}

impl fmt::Display for Report {
    fn fmt<W: fmt::Write>(&self, f: &mut fmt::Formatter<W>) -> fmt::Result {
        let number = self.number;
        let layer = self.layer.number();
        let place = self.place;
        write!(f, "refusal {number}, layer {layer}, place {place}")
    }
}

// What the faults of all layers have in common: each tells a report.
pub trait Fault {
    // what a fault tells
    ghost tells: { Self → Report };

    // The layer that its refusals stand in.
    const LAYER: Layer;

    ghost LAYER: { Layer };

    ghost of_its_layer: { (e : Self) → (tells e).layer ≡ LAYER };

    // The number of the refusal.
    fn number(&self) -> u8
        ensures { result ≡ (tells self.now).number };

    // Its place in the layer.
    fn place(&self) -> u64
        ensures { result ≡ (tells self.now).place };

    fn report(&self) -> Report
        ensures { result ≡ tells self.now }
    {
        Report {
            number: self.number(),
            layer: Self::LAYER,
            place: self.place(),
        }
    }

    ghost numbered: { (e : Self) → (1 ≤ (tells e).number) × ((tells e).number ≤ 15) };
}

// The number of a call's refusal, if it was refused.
pub fn refusal_number<T, F: Fault>(answer: &Result<T, F>) -> Option<u8>
    ensures { MatchResult answer.now (λ _. result ≡ None) (λ e. result ≡ Some (F.tells e).number) }
{
    match answer {
        Ok(_) => None,
        Err(fault) => Some(fault.number()),
    }
}
