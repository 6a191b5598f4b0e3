// Faults by their numbers and layers.
ghost use Rattle.std.specs.Prelude.{◌≡◌, Some};
ghost use Rattle.text.specs.Numbers.{cause_layer, cause_number, shown_fault};

use crate::fault::{Cause, Fault};
use std::fmt;

// Methods and not `From`, which could not tell the number and the layer apart: both are `u8`.
impl Cause {
    pub fn number(self) -> u8
        ensures { result ≡ cause_number self }
    {
        match self {
            Cause::TooLong => 10,
            Cause::Misfit => 11,
            Cause::TooLarge => 12,
            Cause::OtherAddress => 13,
            Cause::Trace(refusal) => refusal.number(),
        }
    }

    // 1 is the trace, 3 the text.
    pub fn layer(self) -> u8
        ensures { result ≡ cause_layer self }
    {
        match self {
            Cause::TooLong | Cause::Misfit | Cause::TooLarge | Cause::OtherAddress => 3,
            Cause::Trace(refusal) => refusal.layer(),
        }
    }
}

impl fmt::Display for Fault {
    ghost output = { λ fault. Some (shown_fault fault) };

    fn fmt<W: fmt::Write>(&self, f: &mut fmt::Formatter<W>) -> fmt::Result {
        let number = self.cause.number();
        let layer = self.cause.layer();
        let line = self.line;
        let column = self.column;
        write!(
            f,
            "fault {number} layer {layer} line {line} column {column}"
        )
    }
}
