// What an instruction is, as it is stated and as a trace holds it, and why one is refused.

#[derive(Clone, Copy, PartialEq, Eq)]
pub enum Kind {
    Load,
    Store,
    Swap,
    Sync,
}

// Where an instruction reads or writes. Drafts and traces do nothing with addresses but compare them.
#[derive(Clone, Copy, PartialEq, Eq)]
pub struct Address {
    pub number: u64,
}

// An instruction as it is stated. Each kind has the five fields of the format, and a field that its kind lacks is 0.
#[derive(Clone, Copy)]
pub struct Instruction {
    pub thread: u64,
    pub kind: Kind,
    pub address: Address,
    pub read: u64,
    pub written: u64,
}

// An instruction as a trace holds it, with the slots of its thread and of its address. 0 is in a field that its kind lacks, as above.
#[derive(Clone, Copy)]
pub struct Entry {
    pub thread: usize,
    pub kind: Kind,
    pub address: usize,
    pub read: u64,
    pub written: u64,
}

// Why an instruction is not added.
#[derive(Clone, Copy, PartialEq, Eq)]
pub enum Refusal {
    UnknownKind,
    TooManyEntries,
    TooManyThreads,
    TooManyAddresses,
}
