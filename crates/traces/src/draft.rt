// Drafts, which grow, and traces, which are sealed drafts. Neither can be copied.
ghost use Rattle.std.specs.Prelude.{◌≡◌, [], length, take, slice_get, IfOk};
ghost use Rattle.traces.specs.Adding.{Leaves, added, addresses_of, admitted, threads_of};
ghost use Rattle.traces.specs.Kinds.{normalized};
ghost use Rattle.traces.specs.Instructions.{instructions};
ghost use Rattle.traces.specs.Stated.{entries_of};

use crate::contents::Contents;
use crate::entry::{Address, Entry, Instruction, Kind, Refusal};
use std::alloc::{AllocError, Global};

// Clauses name what is held, and no view of it: crates above rest on the bounds of `Contents`, which a view would hide.
#[derive(Drop)]
pub struct Draft {
    contents: Contents,
}

impl Draft {
    // An empty draft. It has all the memory that it will ever need.
    pub fn new(heap: Global) -> Result<Draft, AllocError>
        ensures { IfOk result (λ d. instructions d.contents ≡ []) }
    {
        let contents = Contents::new(heap)?;
        Ok(Draft { contents })
    }

    // Adds an instruction at the end, or refuses it and leaves the draft as it was. Its kind is a number, of which any may come.
    pub fn add(
        &mut self,
        thread: u64,
        kind: u64,
        address: Address,
        read: u64,
        written: u64,
    ) -> Result<(), Refusal>
        ensures { Leaves (added (instructions self.old.contents) thread kind address read written) (instructions self.old.contents) result (instructions self.new.contents) }
    {
        let kind = Kind::try_from(kind)?;
        self.push(Instruction {
            thread,
            kind,
            address,
            read,
            written,
        })
    }

    // Adds an instruction at the end, without what its kind lacks, or refuses it and leaves the draft as it was.
    pub fn push(&mut self, instruction: Instruction) -> Result<(), Refusal>
        ensures { Leaves (admitted (instructions self.old.contents) (normalized instruction)) (instructions self.old.contents) result (instructions self.new.contents) }
    {
        self.contents.add(instruction)
    }

    pub fn len(&self) -> usize
        ensures { result ≡ length (instructions self.now.contents) }
    {
        self.contents.len()
    }

    // Keeps the first `len` instructions, or all where there are no more.
    pub fn truncate(&mut self, len: usize)
        ensures { instructions self.new.contents ≡ take len (instructions self.old.contents) }
    {
        self.contents.truncate(len);
    }

    // Uses the draft up.
    pub fn seal(self) -> Trace
        ensures { result.contents ≡ self.contents }
    {
        let Draft { contents } = self;
        Trace { contents }
    }
}

// A sealed draft. As there, clauses name what is held.
#[derive(Drop)]
pub struct Trace {
    contents: Contents,
}

impl Trace {
    pub fn len(&self) -> usize
        ensures { result ≡ length (instructions self.now.contents) }
    {
        self.contents.len()
    }

    pub fn thread_count(&self) -> usize
        ensures { result ≡ length (threads_of (instructions self.now.contents)) }
    {
        self.contents.threads.len()
    }

    pub fn address_count(&self) -> usize
        ensures { result ≡ length (addresses_of (instructions self.now.contents)) }
    {
        self.contents.addresses.len()
    }

    // The entry with the number `at`, its thread and its address by their slots.
    pub fn entry(&self, at: usize) -> Option<Entry>
        ensures { result ≡ slice_get (entries_of (instructions self.now.contents)) at }
    {
        self.contents.entry(at)
    }

    // The same with the thread number and the address that were given.
    pub fn instruction(&self, at: usize) -> Option<Instruction>
        ensures { result ≡ slice_get (instructions self.now.contents) at }
    {
        let entry = self.contents.entry(at)?;
        Some(self.contents.instruction_of(entry))
    }
}
