// Pairs of entries of one thread that models keep in their sequence.
ghost use Rattle.std.specs.Prelude.{◌≡◌, ℕ, true, ◌↔◌, List};
ghost use Rattle.models.specs.Meaning.{tables_of};
ghost use Rattle.models.specs.Tables.{AtLeastAsStrict};
ghost use Rattle.forms.specs.Lawful.{Lawful};
ghost use Rattle.forms.specs.PreservedOrder.{KeepsNoFewer};
ghost use Rattle.forms.specs.KeptPairs.{keeps, kept_before, kept_pairs, no_fewer_before};
ghost use Rattle.forms.specs.Traced.{instructions_of, order_of};
ghost use Rattle.forms.specs.UnderModel.{kept_by, traced_by};

use crate::preserved_order::PreservedOrder;
use models::MemoryModel;
use traces::Trace;

impl<'a, M: MemoryModel> PreservedOrder<'a, M> {
    // How many entries keep ahead of entry j. Ones are summed, of which LLVM makes one loop; it makes two of a filter's count.
    fn kept_before(&self, j: usize) -> usize
        ensures { result ≡ kept_before (traced_by self.now) (kept_by self.now) j }
    {
        (0..j).map(|i| usize::from(self.keeps_ahead(i, j))).sum()
    }

    // How many pairs of entries of one thread are kept in their sequence.
    pub fn kept_pairs(&self) -> usize
        ensures { result ≡ kept_pairs (traced_by self.now) (kept_by self.now) }
    {
        (0..self.trace.len()).map(|j| self.kept_before(j)).sum()
    }
}

// Whether the first order keeps ahead of entry j every entry that the second keeps ahead of it.
fn keeps_no_fewer_before<M: MemoryModel, N: MemoryModel>(
    first: &PreservedOrder<M>,
    second: &PreservedOrder<N>,
    j: usize,
) -> bool
    ensures { result ≡ no_fewer_before (keeps (traced_by first.now) (kept_by first.now)) (keeps (traced_by second.now) (kept_by second.now)) j }
{
    (0..j).all(|i| !second.keeps_ahead(i, j) || first.keeps_ahead(i, j))
}

// Whether the first model keeps ahead every pair of this trace that the second keeps ahead.
// Where it does, and so wherever it is at least as strict, each of its lawful orders of the trace is lawful under the second.
pub fn at_least_as_strict_on<M: MemoryModel, N: MemoryModel>(
    trace: &Trace,
    first: &M,
    second: &N,
) -> bool
    ensures pairs { (result ≡ true) ↔ KeepsNoFewer (instructions_of trace.now) (order_of M.MemoryModel first.now trace.now) (order_of N.MemoryModel second.now trace.now) }
    ensures strict { AtLeastAsStrict (tables_of M.MemoryModel first.now) (tables_of N.MemoryModel second.now) → result ≡ true }
    ensures orders { result ≡ true → (o : List ℕ) → Lawful (instructions_of trace.now) (order_of M.MemoryModel first.now trace.now) o → Lawful (instructions_of trace.now) (order_of N.MemoryModel second.now trace.now) o }
    ensures weaker { AtLeastAsStrict (tables_of M.MemoryModel first.now) (tables_of N.MemoryModel second.now) → (o : List ℕ) → Lawful (instructions_of trace.now) (order_of M.MemoryModel first.now trace.now) o → Lawful (instructions_of trace.now) (order_of N.MemoryModel second.now trace.now) o }
{
    let first = PreservedOrder::new(trace, first);
    let second = PreservedOrder::new(trace, second);
    (0..trace.len()).all(|j| keeps_no_fewer_before(&first, &second, j))
}
