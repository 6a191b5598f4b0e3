// The order form of a model: an order of the entries, placed one by one.
use crate::entry_set::EntrySet;
use crate::memory::Memory;
use crate::ordered::OrderedTrace;

// A trace with its preserved order under a model, the entries placed so far, and memory after them.
#[derive(Drop)]
pub struct OrderForm<M> {
    pub(crate) ordered: OrderedTrace,
    pub(crate) model: M,
    pub(crate) placed: EntrySet,
    pub(crate) memory: Memory,
}
