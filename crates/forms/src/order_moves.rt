// The order form's moves.
ghost use Rattle.std.specs.Prelude.{◌≡◌, ◌↔◌};
ghost use Rattle.models.specs.Meaning.{tables_of};
ghost use Rattle.forms.specs.KeptPairs.{clipped};
ghost use Rattle.forms.specs.Lawful.{Allows};
ghost use Rattle.forms.specs.OrderForms.{CanFinish, kept_in, order_carries, order_done, order_left, order_note, order_start, order_step, traced};
ghost use Rattle.forms.specs.Traced.{instructions_of, order_of};
ghost use Rattle.forms.specs.Lemmas.OrderRuns.{order_bounded, order_complete, order_lowers, order_sound, order_within};
ghost use Rattle.std.proofs.Common.{rules};

use crate::entry_set::EntrySet;
use crate::form::Form;
use crate::memory::Memory;
use crate::order_form::OrderForm;
use crate::ordered::OrderedTrace;
use models::MemoryModel;
use traces::Trace;

impl<M: MemoryModel> Form for OrderForm<M> {
    // one code for each entry that a trace can have
    const CODES: u32 = 64;

    ghost CODES = { 64 };

    ghost instructions = { traced };

    ghost order = { kept_in };

    ghost opening = { order_start };

    ghost step = { order_step };

    ghost note = { order_note };

    ghost carries = { order_carries };

    ghost finished = { order_done };

    ghost remainder = { order_left };

    ghost some = { Prim.search rules };

    ghost few = { Prim.search rules };

    ghost within = { order_within };

    ghost stays = { Prim.search rules };

    ghost lowers = { order_lowers };

    ghost bounded = { order_bounded };

    ghost sound = { order_sound };

    ghost complete = { order_complete };

    #[tactic(auto, using(crate::proofs::OrderSteps::moving))]
    fn advance(&mut self, code: u16) -> Option<u64> {
        let e = usize::from(code);
        let entry = self.ordered.trace.entry(e)?;
        let pending = self.placed.complement();
        if self.placed.contains(e) || !self.ordered.may_carry_out(e, entry, pending, &self.memory) {
            return None;
        }
        self.placed = self.placed.with(e);
        Some(self.memory.carry_out(entry))
    }

    #[tactic(auto, using(crate::proofs::OrderSteps::moving))]
    fn retreat(&mut self, code: u16, told: u64) {
        let e = usize::from(code);
        if let Some(entry) = self.ordered.trace.entry(e) {
            self.placed = self.placed.without(e);
            self.memory.take_back(entry, told);
        }
    }

    fn is_finished(&self) -> bool {
        !self.ordered.all.meets(self.placed.complement())
    }
}

impl<M: MemoryModel> OrderForm<M> {
    // The form of a trace under a model, with nothing placed. It uses the trace up.
    // From here all entries can be placed exactly if the model allows the trace.
    pub fn open(trace: Trace, model: M) -> OrderForm<M>
        ensures opening { order_start result ≡ result }
        ensures trace { result.ordered.trace ≡ trace }
        ensures model { result.model ≡ model }
        ensures order { kept_in result ≡ clipped (instructions_of trace) (order_of M.MemoryModel model trace) }
        ensures allowed { CanFinish result ↔ Allows (tables_of M.MemoryModel model) (instructions_of trace) }
    {
        let ordered = OrderedTrace::new(trace, &model);
        OrderForm {
            ordered,
            model,
            placed: EntrySet::empty(),
            memory: Memory::new(),
        }
    }
}
