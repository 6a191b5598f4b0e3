// Events as instructions, and verdicts by model.
ghost use Rattle.std.specs.Prelude.{◌≡◌};
ghost use Rattle.litmus.specs.Table.{instruction_of, row_of, verdict};

use crate::event::{Event, LitmusTest};
use models::ModelName;
use traces::{Address, Instruction, Kind};

// The instruction that an event is.
impl From<Event> for Instruction {
    ghost from_gives = { λ event instruction. instruction ≡ instruction_of event };

    fn from(event: Event) -> Instruction {
        match event {
            Event::Load(thread, number, read) => {
                Instruction::new(thread, Kind::Load, Address { number }, read, 0)
            }
            Event::Store(thread, number, written) => {
                Instruction::new(thread, Kind::Store, Address { number }, 0, written)
            }
            Event::Swap(thread, number, read, written) => {
                Instruction::new(thread, Kind::Swap, Address { number }, read, written)
            }
            Event::Sync(thread) => Instruction::new(
                thread,
                Kind::Sync,
                Address { number: 0 },
                0,
                0,
            ),
        }
    }
}

impl LitmusTest {
    // What the test says of a model: whether it allows the trace.
    pub fn is_allowed(&self, model: ModelName) -> bool
        ensures { result ≡ verdict (row_of self.now) model }
    {
        match model {
            ModelName::Sc => self.sc,
            ModelName::Tso => self.tso,
            ModelName::Pso => self.pso,
            ModelName::Rmo => self.rmo,
        }
    }
}
