// The preserved order of a trace, found once.
ghost use Rattle.std.specs.Prelude.{◌≡◌, ℕ, ◌<◌, length};
ghost use Rattle.forms.specs.EntrySets.{member};
ghost use Rattle.forms.specs.KeptPairs.{clipped, keeps, waiting};
ghost use Rattle.forms.specs.OrderTables.{Linked, is_writer_before, links_at, tabled};
ghost use Rattle.forms.specs.Traced.{instructions_of, order_of};
ghost use Rattle.forms.specs.UnderModel.{kept_by, traced_by};

use crate::entry_links::EntryLinks;
use crate::entry_set::EntrySet;
use crate::order::earlier_pair;
use crate::ordered::OrderedTrace;
use crate::preserved_order::PreservedOrder;
use models::MemoryModel;
use std::array;
use traces::Trace;

impl OrderedTrace {
    // A trace with its preserved order under a model.
    pub(crate) fn new<M: MemoryModel>(trace: Trace, model: &M) -> OrderedTrace
        ensures trace { result.trace ≡ trace }
        ensures order { tabled result.waiting result.links ≡ clipped (instructions_of trace) (order_of M.MemoryModel model.now trace) }
    {
        let all = EntrySet::where_passes(trace.len(), |_| true);
        let order = PreservedOrder::new(&trace, model);
        let waiting = EntrySet::where_passes(trace.len(), |i| order.waits(i));
        let links = entry_links(&order);
        OrderedTrace {
            trace,
            all,
            waiting,
            links,
        }
    }
}

// Whether entry i is an earlier one of entry e's thread and writes its address.
fn writes_before(trace: &Trace, e: usize, i: usize) -> bool
    ensures { result ≡ is_writer_before (instructions_of trace.now) e i }
{
    earlier_pair(trace, i, e).is_some_and(|(earlier, later)| {
        earlier.kind.writes() && earlier.address == later.address
    })
}

// The links of each entry.
fn entry_links<M: MemoryModel>(order: &PreservedOrder<M>) -> [EntryLinks; 64]
    ensures ahead { (i j : ℕ) → member (links_at result j).ahead i ≡ keeps (traced_by order.now) (kept_by order.now) i j }
    ensures writers { (e i : ℕ) → e < length (traced_by order.now) → member (links_at result e).writers i ≡ is_writer_before (traced_by order.now) e i }
{
    array::from_fn(|e| links_of(order, e))
}

// The links of entry e.
fn links_of<M: MemoryModel>(order: &PreservedOrder<M>, e: usize) -> EntryLinks
    ensures { Linked (traced_by order.now) (kept_by order.now) e result }
{
    EntryLinks {
        ahead: EntrySet::where_passes(e, |i| order.keeps_ahead(i, e)),
        writers: EntrySet::where_passes(e, |i| writes_before(order.trace, e, i)),
    }
}
