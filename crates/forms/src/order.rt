// The preserved order by the numbers of the entries.
ghost use Rattle.std.specs.Prelude.{◌≡◌, if◌then◌else◌, Some, None};
ghost use Rattle.forms.specs.Entries.{instruction_at};
ghost use Rattle.forms.specs.KeptPairs.{is_earlier, keeps, waiting};
ghost use Rattle.forms.specs.Traced.{instructions_of};
ghost use Rattle.forms.specs.UnderModel.{kept_by, traced_by};

use crate::preserved_order::PreservedOrder;
use models::{Access, MemoryModel};
use traces::{Instruction, Trace};

impl<'a, M: MemoryModel> PreservedOrder<'a, M> {
    // The preserved order of this trace under this model.
    #[tactic(auto, using(crate::proofs::Preserving::preserved_laws))]
    pub fn new(trace: &'a Trace, model: &'a M) -> PreservedOrder<'a, M>
        ensures trace { result.trace.now ≡ trace.now }
        ensures model { result.model.now ≡ model.now }
    {
        PreservedOrder { trace, model }
    }

    // Whether there is an entry i, and it waits.
    #[tactic(auto, unfolding(crate::specs::PreservedOrder::preserved))]
    pub fn waits(&self, i: usize) -> bool
        ensures { result ≡ waiting (traced_by self.now) (kept_by self.now) i }
    {
        self.trace
            .instruction(i)
            .is_some_and(|instruction| self.model.waits(instruction.kind))
    }

    // Whether entry i is an earlier one of entry j's thread and keeps ahead of it.
    #[tactic(auto, unfolding(crate::specs::PreservedOrder::preserved))]
    pub fn keeps_ahead(&self, i: usize, j: usize) -> bool
        ensures { result ≡ keeps (traced_by self.now) (kept_by self.now) i j }
    {
        earlier_pair(self.trace, i, j).is_some_and(|(earlier, later)| {
            self.model
                .keeps_ahead(Access::from(earlier), Access::from(later))
        })
    }
}

// The instructions of entries i and j, where i is an earlier one of j's thread.
pub(crate) fn earlier_pair(trace: &Trace, i: usize, j: usize) -> Option<(Instruction, Instruction)>
    ensures { result ≡ (if is_earlier (instructions_of trace.now) i j then Some (instruction_at (instructions_of trace.now) i, instruction_at (instructions_of trace.now) j) else None) }
{
    let earlier = trace.instruction(i)?;
    let later = trace.instruction(j)?;
    (i < j && earlier.thread == later.thread).then_some((earlier, later))
}
