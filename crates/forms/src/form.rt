// Forms of a memory model: what can be walked from an opening position to a finished one.
ghost use Rattle.std.specs.Prelude.{◌≡◌, ℕ, ◌<◌, ◌≤◌, Bool, true, List, Some, None, Option, MatchOption};
ghost use Rattle.traces.specs.declared.entry.Instruction.{Instruction};
ghost use Rattle.forms.specs.Lawful.{Lawful};
ghost use Rattle.forms.specs.PreservedOrder.{Preserved};
ghost use Rattle.forms.specs.Runs.{Reaches, carried_out, run};

// A form stands at a position over a trace with its preserved order. A step by a code is refused or leads to another position.
pub trait Form {
    // how many step codes there are: 0 up to one less
    const CODES: u32;

    // that number: the codes are those below it
    ghost CODES: { ℕ };

    // the instructions of the trace
    ghost instructions: { Self → List Instruction };

    // the preserved order of the trace
    ghost order: { Self → Preserved };

    // the same trace and order at the position where nothing is done yet
    ghost opening: { Self → Self };

    // the position after a step, unless it is refused
    ghost step: { Self → ℕ → Option Self };

    // what has to be noted at a step to take it back
    ghost note: { Self → ℕ → ℕ };

    // the entries that a step carries out
    ghost carries: { Self → ℕ → List ℕ };

    // whether everything is done
    ghost finished: { Self → Bool };

    // a bound for the steps to come
    ghost remainder: { Self → ℕ };

    // The number of step codes.
    fn limit() -> u32
        ensures { result ≡ CODES }
    {
        Self::CODES
    }

    // Moves by a code and tells what to note, or refuses and stays.
    // A code and a note are each one number for every form, so that one walk can keep those of any form in plain lists.
    fn advance(&mut self, code: u16) -> Option<u64>
        ensures { MatchOption result ((step self.old code ≡ None) × (self.new ≡ self.old)) (λ n. (step self.old code ≡ Some self.new) × (n ≡ note self.old code)) };

    // Takes a move back that was made by this code and told this note.
    fn retreat(&mut self, code: u16, told: u64)
        ensures { (p : Self) → step p code ≡ Some self.old → told ≡ note p code → self.new ≡ p };

    fn is_finished(&self) -> bool
        ensures { result ≡ finished self.now };

    ghost some: { 1 ≤ CODES };

    ghost few: { CODES ≤ 65536 };

    // a step has one of the codes
    ghost within: { (p q : Self) (code : ℕ) → step p code ≡ Some q → code < CODES };

    // a step keeps the trace and its order
    ghost stays: { (p q : Self) (code : ℕ) → step p code ≡ Some q → opening q ≡ opening p };

    // each step lowers the remainder
    ghost lowers: { (p q : Self) (code : ℕ) → step p code ≡ Some q → remainder q < remainder p };

    ghost bounded: { (p : Self) → remainder p ≤ 128 };

    // codes that lead from the opening to a finished position carry out the entries in a lawful order
    ghost sound: { (p q : Self) (codes : List ℕ) → run step (opening p) codes ≡ Some q → finished q ≡ true → Lawful (instructions p) (order p) (carried_out step carries (opening p) codes) };

    // every lawful order is that of such codes
    ghost complete: { (p : Self) (o : List ℕ) → Lawful (instructions p) (order p) o → Reaches step carries finished (opening p) o };
}
