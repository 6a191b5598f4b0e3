// Memory models: what waits, and what keeps ahead of what, on one thread.
ghost use Rattle.std.specs.Prelude.{◌≡◌, Bool, true, false};
ghost use Rattle.traces.specs.Kinds.{addressed, writes};
ghost use Rattle.traces.specs.declared.entry.Kind.{Kind};
ghost use Rattle.models.specs.declared.access.Access.{Access};

use crate::access::Access;
use traces::Kind;

// A model answers two questions, and its meaning is the two tables of answers.
// It answers from kinds and addresses alone, and always the same, and it shows two laws.
pub trait MemoryModel {
    // whether an instruction of a kind waits
    ghost waiting: { Self → Kind → Bool };

    // whether an access keeps ahead of a later one of its thread
    ghost ahead: { Self → Access → Access → Bool };

    fn waits(&self, kind: Kind) -> bool
        ensures { result ≡ waiting self.now kind };

    // Two arguments, as the tables have them: a pair of accesses would only be taken apart again.
    fn keeps_ahead(&self, i: Access, j: Access) -> bool
        ensures { result ≡ ahead self.now i j };

    // what does not wait keeps ahead of everything later on its thread
    ghost prompt: { (m : Self) (i j : Access) → waiting m i.kind ≡ false → ahead m i j ≡ true };

    // what is on an address keeps ahead of every later write of that address on its thread
    ghost coherent: { (m : Self) (i j : Access) → addressed i.kind ≡ true → writes j.kind ≡ true → i.address ≡ j.address → ahead m i j ≡ true };
}
