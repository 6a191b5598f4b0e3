// The instructions of a trace, one after the other.
ghost use Rattle.std.specs.Prelude.{◌≡◌};
ghost use Rattle.std.specs.Iterator.{YieldsFirst, item_count};
ghost use Rattle.traces.specs.Instructions.{instructions};
ghost use Rattle.traces.specs.Listing.{left};

use crate::draft::Trace;
use crate::entry::Instruction;

// Borrows a trace, and stands at the instruction that comes next.
// A number says where, since a trace holds entries and so has no slice of instructions to lend.
#[derive(Drop)]
pub struct Instructions<'a> {
    trace: &'a Trace,
    at: usize,
}

impl Iterator for Instructions<'_> {
    type Item = Instruction;

    ghost next_gives = { YieldsFirst left };

    ghost remaining = { item_count left };

    #[tactic(auto, using(crate::proofs::Remainders::drop_missing))]
    fn next(&mut self) -> Option<Instruction> {
        let instruction = self.trace.instruction(self.at)?;
        self.at += 1;
        Some(instruction)
    }
}

impl Trace {
    // Its instructions in the sequence in which they were added.
    pub fn instructions(&self) -> Instructions<'_>
        ensures { left result ≡ instructions self.now.contents }
    {
        Instructions { trace: self, at: 0 }
    }
}
