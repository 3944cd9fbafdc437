// The plan that a sheet spells: the plan layer.
ghost use Rattle.std.specs.Prelude.{Some};
ghost use Rattle.sheets.specs.Spelled.{mistake_text};
ghost use Rattle.sheets.specs.Answers.{mistake};

use std::fmt;
use tasks::refusal::Refusal;

pub mod load;

// Who found a fault: the sheet, for 1 to 4, or the plan, for the rest.
#[derive(Clone, Copy, PartialEq, Eq, Debug)]
pub enum Layer {
    Sheet,
    Plan,
}

// A sheet that cannot be loaded: the refusal, the layer that found it, and the place of the faulty record.
#[derive(Clone, Copy, Debug)]
pub struct Fault {
    pub refusal: Refusal,
    pub layer: Layer,
    pub place: usize,
}

// A fault is told as `refused` with its number, and the place of the record.
impl fmt::Display for Fault {
    ghost output = { λ fault. Some (mistake_text (mistake fault)) };

    fn fmt<W: fmt::Write>(&self, f: &mut fmt::Formatter<W>) -> fmt::Result {
        let place = self.place;
        match self.refusal.number() {
            Some(number) => write!(f, "refused {number} at {place}"),
            None => f.write_str("no memory"),
        }
    }
}
