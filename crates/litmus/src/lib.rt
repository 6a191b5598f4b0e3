#![tactic(auto)]

mod event;
mod events;
mod table;

pub use event::{Event, LitmusTest};
pub use table::litmus_tests;

#[cfg(test)]
mod tests {
    use crate::event::LitmusTest;
    use crate::table::litmus_tests;
    use forms::{Form, OrderForm};
    use models::{MemoryModel, ModelName, Pso, Rmo, Sc, Tso};
    use std::test::*;
    use traces::{Draft, Instruction, Trace};

    // The trace of a litmus test.
    fn trace_of(rt: HostRuntime, test: &LitmusTest) -> Result<Trace, Fail> {
        let mut draft = Draft::new(rt.alloc())?;
        for event in test.events {
            draft
                .push(Instruction::from(*event))
                .map_err(|_| "an entry is refused")?;
        }
        Ok(draft.seal())
    }

    // Whether at most `left` moves lead to a finished position. The position is as it was where they do not.
    fn can_finish<F: Form>(form: &mut F, left: usize) -> bool {
        if form.is_finished() {
            return true;
        }
        if left == 0 {
            return false;
        }
        for code in (0..=u16::MAX).take(F::CODES as usize) {
            if let Some(note) = form.advance(code) {
                if can_finish(form, left - 1) {
                    return true;
                }
                form.retreat(code, note);
            }
        }
        false
    }

    fn allows<M: MemoryModel + Drop>(
        rt: HostRuntime,
        test: &LitmusTest,
        model: M,
    ) -> Result<bool, Fail> {
        let trace = trace_of(rt, test)?;
        let entries = trace.len();
        let mut form = OrderForm::open(trace, model);
        Ok(can_finish(&mut form, entries))
    }

    #[test]
    fn order_form_finds_the_verdicts(rt: HostRuntime) -> Result<(), Fail> {
        for test in litmus_tests() {
            assert_eq!(rt; allows(rt, test, Sc)?, test.is_allowed(ModelName::Sc));
            assert_eq!(rt; allows(rt, test, Tso)?, test.is_allowed(ModelName::Tso));
            assert_eq!(rt; allows(rt, test, Pso)?, test.is_allowed(ModelName::Pso));
            assert_eq!(rt; allows(rt, test, Rmo)?, test.is_allowed(ModelName::Rmo));
        }
        Ok(())
    }
}
