// Why and where a text is refused.
ghost use Rattle.std.specs.Prelude.{◌≡◌};
ghost use Rattle.text.specs.declared.fault.Cause.TheVariants.{Trace};

use traces::Refusal;

#[derive(Clone, Copy)]
pub enum Cause {
    TooLong,
    Misfit,
    TooLarge,
    OtherAddress,
    Trace(Refusal),
}

// The draft's refusal, carried whole.
impl From<Refusal> for Cause {
    ghost from_gives = { λ refusal cause. cause ≡ Trace refusal };

    fn from(refusal: Refusal) -> Cause {
        Cause::Trace(refusal)
    }
}

#[derive(Clone, Copy)]
pub struct Fault {
    pub cause: Cause,
    pub line: usize,
    pub column: usize,
}
