// What a line is made of, and what it states.
ghost use Rattle.std.specs.Prelude.{◌≡◌};
ghost use Rattle.text.specs.Lines.{instruction_of};

use crate::token::Symbol;
use traces::{Address, Instruction, Kind};

// What a line has to have next. The line forms are lists of these, since a call for each part would say no more.
#[derive(Clone, Copy)]
pub enum Part {
    Thread,
    Address,
    SameAddress,
    Read,
    Written,
    Fixed(Symbol),
    LineEnd,
}

// The numbers of a line, and the columns of the two at which a refusal is placed. 0 is where none has come yet:
// each form of a line has all the numbers of its kind, and in an instruction too the others are 0.
#[derive(Clone, Copy)]
pub struct Fields {
    pub thread: u64,
    pub thread_column: usize,
    pub address: Address,
    pub address_column: usize,
    pub read: u64,
    pub written: u64,
}

// The instruction that a line states.
#[derive(Clone, Copy)]
pub struct Statement {
    pub kind: Kind,
    pub fields: Fields,
}

impl From<Statement> for Instruction {
    ghost from_gives = { λ statement instruction. instruction ≡ instruction_of statement };

    fn from(statement: Statement) -> Instruction {
        let Statement { kind, fields } = statement;
        Instruction::new(
            fields.thread,
            kind,
            fields.address,
            fields.read,
            fields.written,
        )
    }
}
