// The preserved program order of a trace under a model.
ghost use Rattle.forms.specs.PreservedOrder.{Laws};
ghost use Rattle.forms.specs.Traced.{instructions_of, order_of};

use models::MemoryModel;
use traces::Trace;

// A trace and a model, whose answers at the entries of the trace have the two laws of a preserved order.
#[derive(Drop)]
pub struct PreservedOrder<'a, M: MemoryModel> {
    pub(crate) trace: &'a Trace,
    pub(crate) model: &'a M,
    pub ghost laws: { Laws (instructions_of trace.now) (order_of M.MemoryModel model.now trace.now) },
}
