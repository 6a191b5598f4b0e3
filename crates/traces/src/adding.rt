// Instructions put at the end of what is held, and taken from there.
ghost use Rattle.std.specs.Prelude.{◌≡◌, ◌<◌, true, [], length, take, slice_get, IfOk, vec_len};
ghost use Rattle.traces.specs.Adding.{Leaves, admitted};
ghost use Rattle.traces.specs.Instructions.{instructions};
ghost use Rattle.traces.specs.Kinds.{addressed, normalized};
ghost use Rattle.traces.specs.Stated.{AddressesNamed, ThreadsNamed, address_reach, reach, stated_by, thread_reach};

use crate::contents::{Contents, MAX_ENTRIES};
use crate::entry::{Address, Entry, Instruction, Refusal};
use crate::slots::Slots;
use std::alloc::{AllocError, Global};

impl Contents {
    // Nothing, with all the room that will ever be needed.
    pub(crate) fn new(heap: Global) -> Result<Contents, AllocError>
        ensures { IfOk result (λ c. instructions c ≡ []) }
    {
        let entries = Vec::with_capacity(heap, MAX_ENTRIES)?;
        let threads = Slots::new(heap)?;
        let addresses = Slots::new(heap)?;
        Ok(Contents {
            entries,
            threads,
            addresses,
        })
    }

    // Puts an instruction at the end, or refuses it and leaves all as it was.
    pub(crate) fn add(&mut self, instruction: Instruction) -> Result<(), Refusal>
        ensures { Leaves (admitted (instructions self.old) (normalized instruction)) (instructions self.old) result (instructions self.new) }
    {
        if self.len() >= MAX_ENTRIES {
            return Err(Refusal::TooManyEntries);
        }
        let added = instruction.normalized();
        let thread = Some(added.thread);
        let thread_slot = self.threads.slot_of(thread).ok_or(Refusal::TooManyThreads)?;
        let location = added.location();
        let address_slot = self
            .addresses
            .slot_of(location)
            .ok_or(Refusal::TooManyAddresses)?;
        self.threads.enlist(thread, thread_slot);
        self.addresses.enlist(location, address_slot);
        self.entries.push_reserved(Entry {
            thread: thread_slot,
            kind: added.kind,
            address: address_slot,
            read: added.read,
            written: added.written,
        });
        Ok(())
    }

    // Takes away all entries but the first `len`, with the thread numbers and addresses that only they name.
    pub(crate) fn truncate(&mut self, len: usize)
        ensures { instructions self.new ≡ take len (instructions self.old) }
    {
        self.entries.truncate(len);
        let (threads, addresses) = named(self.entries.as_slice());
        self.threads.truncate(threads);
        self.addresses.truncate(addresses);
    }

    pub(crate) fn len(&self) -> usize
        ensures { result ≡ length (instructions self.now) }
    {
        self.entries.len()
    }

    // The entry with the number `at`, if there is one.
    pub(crate) fn entry(&self, at: usize) -> Option<Entry>
        ensures { result ≡ slice_get self.now.entries.items at }
    {
        self.entries.get(at).copied()
    }

    // The instruction that an entry stands for.
    pub(crate) fn instruction_of(&self, entry: Entry) -> Instruction
        requires thread { entry.thread < vec_len self.now.threads.items }
        requires address { addressed entry.kind ≡ true → entry.address < vec_len self.now.addresses.items }
        ensures { result ≡ stated_by self.now.threads.items.items self.now.addresses.items.items entry }
    {
        Instruction {
            thread: self.threads.items[entry.thread],
            kind: entry.kind,
            address: if entry.kind.has_address() {
                self.addresses.items[entry.address]
            } else {
                Address { number: 0 }
            },
            read: entry.read,
            written: entry.written,
        }
    }
}

// How many addresses there must be for the slot of an entry.
fn address_reach(entry: &Entry) -> usize
    requires { addressed entry.now.kind ≡ true → entry.now.address < 16 }
    ensures { result ≡ address_reach entry.now }
{
    if entry.kind.has_address() {
        entry.address + 1
    } else {
        0
    }
}

// How many threads and how many addresses the slots of entries name.
fn named(entries: &[Entry]) -> (usize, usize)
    requires threads { ThreadsNamed 8 entries.now }
    requires addresses { AddressesNamed 16 entries.now }
    ensures threads { result.0 ≡ reach thread_reach entries.now }
    ensures addresses { result.1 ≡ reach address_reach entries.now }
{
    let threads = entries.iter().map(|entry| entry.thread + 1).max();
    let addresses = entries.iter().map(address_reach).max();
    (threads.unwrap_or(0), addresses.unwrap_or(0))
}
