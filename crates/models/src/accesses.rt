// What the tables of the models ask of accesses.
ghost use Rattle.std.specs.Prelude.{◌≡◌};
ghost use Rattle.models.specs.Accesses.{access_of, both_write, either_syncs, on_same_address};

use crate::access::Access;
use traces::{Instruction, Kind};

// The access of an instruction.
impl From<Instruction> for Access {
    ghost from_gives = { λ instruction access. access ≡ access_of instruction };

    fn from(instruction: Instruction) -> Access {
        Access {
            kind: instruction.kind,
            address: instruction.address,
        }
    }
}

impl Access {
    // Whether both are on an address, and it is the same.
    pub(crate) fn is_on_same_address(self, other: Access) -> bool
        ensures { result ≡ on_same_address self other }
    {
        self.kind.has_address() && other.kind.has_address() && self.address == other.address
    }

    pub(crate) fn both_write(self, other: Access) -> bool
        ensures { result ≡ both_write self other }
    {
        self.kind.writes() && other.kind.writes()
    }

    pub(crate) fn either_syncs(self, other: Access) -> bool
        ensures { result ≡ either_syncs self other }
    {
        self.kind == Kind::Sync || other.kind == Kind::Sync
    }
}
