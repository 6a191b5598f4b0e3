// A trace with its preserved order.
ghost use Rattle.forms.specs.OrderTables.{AllInSet, CoherentInTable, OnlyEarlier, PromptInTable, WritersInTable};
ghost use Rattle.forms.specs.Traced.{instructions_of};

use crate::entry_links::EntryLinks;
use crate::entry_set::EntrySet;
use traces::Trace;

// A trace and, found once, which entries wait, which keep ahead of each one, and which may forward a value to it.
// The two laws of a preserved order are part of the type.
#[derive(Drop)]
pub struct OrderedTrace {
    pub(crate) trace: Trace,
    // all entries
    pub(crate) all: EntrySet,
    // the entries that wait
    pub(crate) waiting: EntrySet,
    // the links of each entry, in a fixed place as no opening allocates
    pub(crate) links: [EntryLinks; 64],
    ghost whole: { AllInSet (instructions_of trace) all },
    ghost earlier: { OnlyEarlier (instructions_of trace) links },
    ghost prompt: { PromptInTable (instructions_of trace) waiting links },
    ghost coherent: { CoherentInTable (instructions_of trace) links },
    ghost forwarding: { WritersInTable (instructions_of trace) links },
}
