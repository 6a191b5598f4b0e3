// What an entry does to memory.
ghost use Rattle.std.specs.Prelude.{◌≡◌, ◌<◌, true};
ghost use Rattle.traces.specs.Kinds.{writes};
ghost use Rattle.forms.specs.Memories.{blank, with_word, word_of};

use crate::memory::Memory;
use std::mem;
use traces::Entry;

// The bound of an address stays a requires of both moves: a checked index would add a branch that never runs.
impl Memory {
    pub(crate) fn new() -> Memory
        ensures { result ≡ blank }
    {
        Memory { words: [0; 16] }
    }

    // Sets the word of an entry that writes, and tells the one that it overwrites; tells 0 where it writes none, since a note is a number for every entry.
    pub(crate) fn carry_out(&mut self, entry: Entry) -> u64
        requires { writes entry.kind ≡ true → entry.address < 16 }
        ensures memory { self.new ≡ with_word self.old entry entry.written }
        ensures told { result ≡ word_of self.old entry }
    {
        if entry.kind.writes() {
            mem::replace(&mut self.words[entry.address], entry.written)
        } else {
            0
        }
    }

    // Puts the word back that an entry overwrote.
    pub(crate) fn take_back(&mut self, entry: Entry, told: u64)
        requires { writes entry.kind ≡ true → entry.address < 16 }
        ensures { self.new ≡ with_word self.old entry told }
    {
        if entry.kind.writes() {
            self.words[entry.address] = told;
        }
    }
}
