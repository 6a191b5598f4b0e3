// Litmus tests: small traces whose verdicts the field knows.

// One instruction of a litmus test, by its thread, its address and its values.
#[derive(Clone, Copy)]
pub enum Event {
    // thread, address, value read
    Load(u64, u64, u64),
    // thread, address, value written
    Store(u64, u64, u64),
    // thread, address, value read, value written
    Swap(u64, u64, u64, u64),
    // thread
    Sync(u64),
}

// A trace, and what the test says of each model: whether it allows the trace. One verdict a model, as a table of the field has it.
#[derive(Clone, Copy)]
pub struct LitmusTest {
    pub name: &'static str,
    pub events: &'static [Event],
    pub sc: bool,
    pub tso: bool,
    pub pso: bool,
    pub rmo: bool,
}
