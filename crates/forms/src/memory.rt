// Memory: one value for each address, by the address's slot.

// The words have a fixed place, as an opening cannot fail and so allocates nothing.
#[derive(Clone, Copy)]
pub struct Memory {
    pub(crate) words: [u64; 16],
}
