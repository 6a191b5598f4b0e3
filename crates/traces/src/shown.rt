// Instructions written out.
ghost use Rattle.std.specs.Prelude.{Some};
ghost use Rattle.traces.specs.Shown.{shown};

use crate::entry::{Address, Instruction, Kind};
use std::fmt;

impl fmt::Display for Instruction {
    ghost output = { λ instruction. Some (shown instruction) };

    fn fmt<W: fmt::Write>(&self, f: &mut fmt::Formatter<W>) -> fmt::Result {
        let Instruction {
            thread,
            kind,
            address: Address { number },
            read,
            written,
        } = *self;
        match kind {
            Kind::Load => write!(f, "thread {thread} loads {read} from M[{number}]"),
            Kind::Store => write!(f, "thread {thread} stores {written} to M[{number}]"),
            Kind::Swap => write!(
                f,
                "thread {thread} swaps {read} for {written} in M[{number}]"
            ),
            Kind::Sync => write!(f, "thread {thread} syncs"),
        }
    }
}
