// Whole texts, read into a draft.
ghost use Rattle.std.specs.Prelude.{◌≡◌};
ghost use Rattle.traces.specs.Adding.{Leaves};
ghost use Rattle.traces.specs.Instructions.{instructions};
ghost use Rattle.text.specs.declared.fault.Cause.TheVariants.{Trace};
ghost use Rattle.text.specs.Faults.{Definite, Reads};
ghost use Rattle.text.specs.Places.{at};
ghost use Rattle.text.specs.Texts.{Enters, column_of, line_read_from, text_read};

use crate::fault::{Cause, Fault};
use crate::reader::{Lines, Reader};
use crate::statement::Statement;
use traces::{Draft, Instruction, Refusal};

// The most bytes that a text may have.
pub const MAX_BYTES: usize = 16384;

// Where a draft's refusal of a statement is placed: at its first address, or at its thread number.
fn column_of(cause: Cause, statement: Statement) -> usize
    ensures { (refusal : Refusal) → cause ≡ Trace refusal → result ≡ column_of refusal statement }
{
    match cause {
        Cause::Trace(Refusal::TooManyAddresses) => statement.fields.address_column,
        _ => statement.fields.thread_column,
    }
}

// Adds what a line states. The draft's refusal is carried whole.
fn enter(draft: &mut Draft, statement: Statement) -> Result<(), Cause>
    ensures { Enters (instructions draft.old.contents) statement result (instructions draft.new.contents) }
{
    draft.push(Instruction::from(statement))?;
    Ok(())
}

impl Reader<'_> {
    // Reads the line and adds what it states, or leaves the draft as it was.
    fn read_line(self, draft: &mut Draft) -> Result<(), Fault>
        ensures { Leaves (line_read_from (at self.entry) (instructions draft.old.contents)) (instructions draft.old.contents) result (instructions draft.new.contents) }
    {
        let line = self.line;
        let Some(statement) = self.statement()? else {
            return Ok(());
        };
        enter(draft, statement).map_err(|cause| Fault {
            cause,
            line,
            column: column_of(cause, statement),
        })
    }
}

// Reads a text into the draft: all of it, or nothing and its first fault.
#[tactic(auto, using(crate::proofs::Settling::reading))]
pub fn read(draft: &mut Draft, text: &[u8]) -> Result<(), Fault>
    ensures reads { Reads (instructions draft.old.contents) text.now result (instructions draft.new.contents) }
    ensures calculated { Leaves (text_read (instructions draft.old.contents) text.now) (instructions draft.old.contents) result (instructions draft.new.contents) }
    ensures definite { Definite (instructions draft.old.contents) text.now }
{
    // The format gives the line and the column 0 to a text that is too long, as it has no place in one.
    if text.len() > MAX_BYTES {
        return Err(Fault {
            cause: Cause::TooLong,
            line: 0,
            column: 0,
        });
    }
    let before = draft.len();
    for reader in Lines::new(text) {
        if let Err(fault) = reader.read_line(draft) {
            draft.truncate(before);
            return Err(fault);
        }
    }
    Ok(())
}
