// What drafts and traces hold.
ghost use Rattle.std.specs.Prelude.{◌≡◌, ◌≤◌, map, vec_len, vec_capacity};
ghost use Rattle.traces.specs.Adding.{addresses_of, threads_of};
ghost use Rattle.traces.specs.Stated.{AddressesNamed, ThreadsNamed, cleared, stated};

use crate::entry::{Address, Entry};
use crate::slots::Slots;

pub(crate) const MAX_ENTRIES: usize = 64;

const MAX_THREADS: usize = 8;

const MAX_ADDRESSES: usize = 16;

// The entries, and the thread numbers and addresses that their slots name, by first appearance.
#[derive(Drop)]
pub struct Contents {
    pub(crate) entries: Vec<Entry>,
    pub(crate) threads: Slots<u64, MAX_THREADS>,
    pub(crate) addresses: Slots<Address, MAX_ADDRESSES>,
    ghost few_entries: { vec_len entries ≤ 64 },
    ghost room: { 64 ≤ vec_capacity entries },
    ghost threads_named: { ThreadsNamed (vec_len threads.items) entries.items },
    ghost addresses_named: { AddressesNamed (vec_len addresses.items) entries.items },
    ghost plain: { map cleared entries.items ≡ entries.items },
    ghost threads_appear: { threads.items.items ≡ threads_of (stated threads.items.items addresses.items.items entries.items) },
    ghost addresses_appear: { addresses.items.items ≡ addresses_of (stated threads.items.items addresses.items.items entries.items) },
}
