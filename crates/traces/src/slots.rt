// Lists of different items, in which each item keeps its place.
ghost use Rattle.std.specs.Prelude.{◌≡◌, ◌<◌, ◌≤◌, [], length, take, IfOk, vec_len, vec_capacity};
ghost use Rattle.traces.specs.First.{SlotOf, SlotWithin};
ghost use Rattle.traces.specs.Slots.{Distinct, grown};

use crate::lookup::first_equal;
use std::alloc::{AllocError, Global};

// Different items, at most `ROOM` of them, and memory for as many. The place of an item is its slot.
// A list that is searched from its start, since a map would ask for memory as it grows, and adding must not lack any.
#[derive(Drop)]
pub struct Slots<T, const ROOM: usize> {
    pub(crate) items: Vec<T>,
    ghost few: { vec_len items ≤ ROOM },
    ghost room: { ROOM ≤ vec_capacity items },
    ghost distinct: { (d : T) → Distinct d items.items },
}

impl<T: Eq + Copy, const ROOM: usize> Slots<T, ROOM> {
    pub(crate) fn new(heap: Global) -> Result<Slots<T, ROOM>, AllocError>
        ensures { IfOk result (λ s. s.items.items ≡ []) }
    {
        let items = Vec::with_capacity(heap, ROOM)?;
        Ok(Slots { items })
    }

    pub(crate) fn len(&self) -> usize
        ensures { result ≡ length self.now.items.items }
    {
        self.items.len()
    }

    // The slot of what is brought: the place of the equal item, or else the next free one if there is room. 0 where nothing is brought, as the format has it.
    pub(crate) fn slot_of(&self, brought: Option<T>) -> Option<usize>
        ensures { SlotWithin (λ y x r. r ≡ T.eq y x) ROOM self.now.items.items brought result }
    {
        let slot = match brought {
            Some(x) => first_equal(self.items.as_slice(), &x).unwrap_or(self.items.len()),
            None => 0,
        };
        (slot < ROOM).then_some(slot)
    }

    // Puts what is brought, whose slot is given, at the end, unless it is there.
    pub(crate) fn enlist(&mut self, brought: Option<T>, slot: usize)
        requires found { SlotOf (λ y x r. r ≡ T.eq y x) self.old.items.items brought slot }
        requires free { slot < ROOM }
        ensures items { self.new.items.items ≡ grown self.old.items.items brought slot }
        ensures capacity { vec_capacity self.new.items ≡ vec_capacity self.old.items }
    {
        if let Some(x) = brought {
            if slot >= self.items.len() {
                self.items.push_reserved(x);
            }
        }
    }

    // Keeps the first `len` items.
    pub(crate) fn truncate(&mut self, len: usize)
        ensures { self.new.items.items ≡ take len self.old.items.items }
    {
        self.items.truncate(len);
    }
}
