// Links between entries.
use crate::entry_set::EntrySet;

// Which entries are linked to one entry.
#[derive(Clone, Copy)]
pub struct EntryLinks {
    // those that keep ahead of it
    pub(crate) ahead: EntrySet,
    // the earlier ones of its thread that write its address
    pub(crate) writers: EntrySet,
}
