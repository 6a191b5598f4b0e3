// Carrying out an entry: what keeps it back, and the value that it sees. Both forms do it alike.
ghost use Rattle.std.specs.Prelude.{◌≡◌, ◌<◌, true, length, slice_get, Some};
ghost use Rattle.traces.specs.Kinds.{reads};
ghost use Rattle.traces.specs.Stated.{entries_of};
ghost use Rattle.forms.specs.Carrying.{forwarding, last_below, may_carry_out, seen};
ghost use Rattle.forms.specs.Entries.{instruction_at};
ghost use Rattle.forms.specs.EntrySets.{member};
ghost use Rattle.forms.specs.Memories.{word_at};
ghost use Rattle.forms.specs.OrderTables.{tabled};
ghost use Rattle.forms.specs.Traced.{instructions_of};

use crate::entry_set::EntrySet;
use crate::memory::Memory;
use crate::ordered::OrderedTrace;
use traces::Entry;

impl OrderedTrace {
    // The value that entry w writes.
    #[tactic(auto, using(crate::proofs::Forwards::writing))]
    fn value_written(&self, w: usize) -> u64
        ensures { result ≡ (instruction_at (instructions_of self.now.trace) w).written }
    {
        self.trace.entry(w).map_or(0, |entry| entry.written)
    }

    // The latest pending entry earlier on the thread of entry e that writes its address.
    #[tactic(auto, using(crate::proofs::Forwards::common_forwards))]
    fn forwarding_entry(&self, e: usize, pending: EntrySet) -> Option<usize>
        requires { e < length (instructions_of self.now.trace) }
        ensures { result ≡ last_below (forwarding (instructions_of self.now.trace) (member pending) e) e }
    {
        self.links[e].writers.latest_common(pending)
    }

    // The value that a reading entry sees: the forwarding entry's, if there is one, or else memory's.
    // The option is taken apart before memory is consulted.
    #[tactic(auto, using(crate::proofs::Forwards::seeing))]
    fn value_seen(&self, e: usize, entry: Entry, pending: EntrySet, memory: &Memory) -> u64
        requires found { slice_get (entries_of (instructions_of self.now.trace)) e ≡ Some entry }
        requires reads { reads entry.kind ≡ true }
        ensures { result ≡ seen (instructions_of self.now.trace) (member pending) (word_at (instructions_of self.now.trace) memory.now) e }
    {
        match self.forwarding_entry(e, pending) {
            Some(w) => self.value_written(w),
            None => memory.words[entry.address],
        }
    }

    // Whether entry e may be carried out while others are pending.
    // What belongs to one move stays apart as arguments: a struct of it would be made for one call.
    #[tactic(auto, using(crate::proofs::Forwards::carrying))]
    pub(crate) fn may_carry_out(
        &self,
        e: usize,
        entry: Entry,
        pending: EntrySet,
        memory: &Memory,
    ) -> bool
        requires { slice_get (entries_of (instructions_of self.now.trace)) e ≡ Some entry }
        ensures { result ≡ may_carry_out (instructions_of self.now.trace) (tabled self.now.waiting self.now.links) (member pending) (word_at (instructions_of self.now.trace) memory.now) e }
    {
        if self.links[e].ahead.meets(pending) {
            return false;
        }
        !entry.kind.reads() || entry.read == self.value_seen(e, entry, pending, memory)
    }
}
