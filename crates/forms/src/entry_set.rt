// Sets of entries.

// A set of numbers below 64, by the bits of one number: moves change sets, and may neither allocate nor fail.
#[derive(Clone, Copy)]
pub struct EntrySet {
    pub(crate) bits: u64,
}
