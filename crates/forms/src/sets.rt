// What sets of entries do.
ghost use Rattle.std.specs.Prelude.{◌≡◌, ℕ, ◌^◌, ◌<◌, ◌≤◌, true, false, cond, not, ◌≢◌, nat_lt};
ghost use Rattle.forms.specs.EntrySets.{LatestCommon, empty_set, inserted, member, removed};

use crate::entry_set::EntrySet;

impl EntrySet {
    // The set with no member.
    pub(crate) fn empty() -> EntrySet
        ensures set { result ≡ empty_set }
        ensures none { (i : ℕ) → member result i ≡ false }
    {
        EntrySet { bits: 0 }
    }

    // The numbers below `count` that pass a test, of those below 64.
    pub(crate) fn where_passes<F: Fn(usize) -> bool>(count: usize, test: F) -> EntrySet
        requires { (i : ℕ) → i < count → F.pre test i }
        ensures within { (i : ℕ) → i < count → i < 64 → F.post test i (member result i) }
        ensures beyond { (i : ℕ) → count ≤ i → member result i ≡ false }
        ensures high { (i : ℕ) → 64 ≤ i → member result i ≡ false }
    {
        let mut set = EntrySet::empty();
        for i in 0..count {
            if test(i) {
                set = set.with(i);
            }
        }
        set
    }

    // Whether i is a member.
    #[tactic(auto, using(crate::proofs::Members::contains_by_bit))]
    pub(crate) fn contains(self, i: usize) -> bool
        ensures { result ≡ member self i }
    {
        self.bits & bit(i) != 0
    }

    // The set with i; as it is where i is 64 or more.
    #[tactic(auto, using(crate::proofs::Members::with_by_bit))]
    pub(crate) fn with(self, i: usize) -> EntrySet
        ensures { result ≡ inserted self i }
    {
        EntrySet {
            bits: self.bits | bit(i),
        }
    }

    // The set without i.
    #[tactic(auto, using(crate::proofs::Members::without_by_bit))]
    pub(crate) fn without(self, i: usize) -> EntrySet
        ensures { result ≡ removed self i }
    {
        EntrySet {
            bits: self.bits & !bit(i),
        }
    }

    // The numbers below 64 that are no members.
    #[tactic(auto, using(crate::proofs::Members::member_opposite, crate::proofs::Members::opposite_beyond))]
    pub(crate) fn complement(self) -> EntrySet
        ensures below { (i : ℕ) → i < 64 → member result i ≡ not (member self i) }
        ensures beyond { (i : ℕ) → 64 ≤ i → member result i ≡ false }
    {
        EntrySet { bits: !self.bits }
    }

    // Whether two sets have a member in common.
    #[tactic(auto, using(crate::proofs::Members::some_common, crate::proofs::Members::none_common))]
    pub(crate) fn meets(self, other: EntrySet) -> bool
        ensures common { result ≡ true → (i : ℕ) × (i < 64) × (member self i ≡ true) × (member other i ≡ true) }
        ensures apart { result ≡ false → (i : ℕ) → member self i ≡ true → member other i ≢ true }
    {
        self.bits & other.bits != 0
    }

    // The greatest member that two sets have in common.
    #[tactic(auto, using(crate::proofs::Members::latest_common))]
    pub(crate) fn latest_common(self, other: EntrySet) -> Option<usize>
        ensures { LatestCommon self other result }
    {
        (self.bits & other.bits)
            .checked_ilog2()
            .map(|top| top as usize)
    }
}

// The bit of i; none where i is 64 or more.
fn bit(i: usize) -> u64
    ensures { result ≡ cond (nat_lt i 64) (2 ^ i) 0 }
{
    if i < 64 { 1 << i } else { 0 }
}
