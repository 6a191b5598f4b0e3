// What a memory model sees of an instruction.
use traces::{Address, Kind};

// A kind and an address. A sync is on no address, whatever stands here.
#[derive(Clone, Copy)]
pub struct Access {
    pub kind: Kind,
    pub address: Address,
}
