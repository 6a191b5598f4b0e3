// Kinds and refusals by their numbers, and what each kind has.
ghost use Rattle.std.specs.Prelude.{◌≡◌};
ghost use Rattle.traces.specs.Adding.{address_in};
ghost use Rattle.traces.specs.Kinds.{addressed, instruction, kind_number, known_kind, normalized, reads, refusal_number, trace_layer, writes};

use crate::entry::{Address, Instruction, Kind, Refusal};

// Drafts and traces are layer 1.
const LAYER: u8 = 1;

// The kind that a number stands for, if there is one.
impl TryFrom<u64> for Kind {
    type Error = Refusal;

    ghost try_from_gives = { λ number kind. kind ≡ known_kind number };

    fn try_from(number: u64) -> Result<Kind, Refusal> {
        match number {
            0 => Ok(Kind::Load),
            1 => Ok(Kind::Store),
            2 => Ok(Kind::Swap),
            3 => Ok(Kind::Sync),
            _ => Err(Refusal::UnknownKind),
        }
    }
}

// The number of a kind.
impl From<Kind> for u64 {
    ghost from_gives = { λ kind number. number ≡ kind_number kind };

    fn from(kind: Kind) -> u64 {
        match kind {
            Kind::Load => 0,
            Kind::Store => 1,
            Kind::Swap => 2,
            Kind::Sync => 3,
        }
    }
}

// Tables by `match` and not by `matches!`, so that each kind has its answer and a new one needs one.
impl Kind {
    pub fn reads(self) -> bool
        ensures { result ≡ reads self }
    {
        match self {
            Kind::Load | Kind::Swap => true,
            Kind::Store | Kind::Sync => false,
        }
    }

    pub fn writes(self) -> bool
        ensures { result ≡ writes self }
    {
        match self {
            Kind::Store | Kind::Swap => true,
            Kind::Load | Kind::Sync => false,
        }
    }

    pub fn has_address(self) -> bool
        ensures { result ≡ addressed self }
    {
        match self {
            Kind::Load | Kind::Store | Kind::Swap => true,
            Kind::Sync => false,
        }
    }
}

impl Instruction {
    // The instruction with these fields, but 0 for those that its kind lacks.
    pub fn new(thread: u64, kind: Kind, address: Address, read: u64, written: u64) -> Instruction
        ensures { result ≡ instruction thread kind address read written }
    {
        let none = Instruction {
            thread,
            kind,
            address: Address { number: 0 },
            read: 0,
            written: 0,
        };
        match kind {
            Kind::Load => Instruction {
                address,
                read,
                ..none
            },
            Kind::Store => Instruction {
                address,
                written,
                ..none
            },
            Kind::Swap => Instruction {
                address,
                read,
                written,
                ..none
            },
            Kind::Sync => none,
        }
    }

    // The same with 0 in the fields that its kind lacks.
    pub(crate) fn normalized(self) -> Instruction
        ensures { result ≡ normalized self }
    {
        Instruction::new(
            self.thread,
            self.kind,
            self.address,
            self.read,
            self.written,
        )
    }

    // Its address, unless its kind has none.
    pub fn location(self) -> Option<Address>
        ensures { result ≡ address_in self }
    {
        self.kind.has_address().then_some(self.address)
    }
}

// Methods and not `From`, which could not tell the number and the layer apart: both are `u8`.
impl Refusal {
    pub fn number(self) -> u8
        ensures { result ≡ refusal_number self }
    {
        match self {
            Refusal::UnknownKind => 1,
            Refusal::TooManyEntries => 2,
            Refusal::TooManyThreads => 3,
            Refusal::TooManyAddresses => 4,
        }
    }

    pub fn layer(self) -> u8
        ensures { result ≡ trace_layer }
    {
        LAYER
    }
}
