// What a line states, from its tokens.
ghost use Rattle.std.specs.Prelude.{◌≡◌, MatchResult};
ghost use Rattle.traces.specs.declared.entry.Kind.TheVariants.{Swap};
ghost use Rattle.text.specs.Lines.{accepted, accessed, body, is_end, is_symbol, line_from, number_in, parts, put, statement, swap_parts, value_of};
ghost use Rattle.text.specs.Places.{Gives, at, tok};

use crate::fault::{Cause, Fault};
use crate::reader::Reader;
use crate::statement::{Fields, Part, Statement};
use crate::token::{Located, Symbol, Token};
use traces::{Address, Kind};

const NO_FIELDS: Fields = Fields {
    thread: 0,
    thread_column: 0,
    address: Address { number: 0 },
    address_column: 0,
    read: 0,
    written: 0,
};

// The number that digits denote, where it fits in 64 bits.
#[tactic(auto, using(crate::proofs::Decimals::decimal_large))]
fn value_of(digits: &[u8]) -> Option<u64>
    ensures { result ≡ value_of digits.now }
{
    let mut n: u64 = 0;
    // A `for`, since over `try_fold` the proof did not close: it was left that the closure's `None` means 2^64 or more.
    for b in digits {
        let tens = n.checked_mul(10)?;
        n = tens.checked_add(u64::from(b.saturating_sub(b'0')))?;
    }
    Some(n)
}

fn number_in(token: Token) -> Result<u64, Cause>
    ensures { result ≡ number_in (tok token.entry) }
{
    let Token::Digits(run) = token else {
        return Err(Cause::Misfit);
    };
    value_of(run).ok_or(Cause::TooLarge)
}

fn is_symbol(token: Token, symbol: Symbol) -> bool
    ensures { result ≡ is_symbol symbol (tok token.entry) }
{
    matches!(token, Token::Fixed(found) if found == symbol)
}

fn is_end(token: Token) -> bool
    ensures { result ≡ is_end (tok token.entry) }
{
    matches!(token, Token::LineEnd)
}

// The fields once the number `n`, at `column`, stands where `part` wants one.
fn put_number(part: Part, fields: Fields, column: usize, n: u64) -> Result<Fields, Cause>
    ensures { result ≡ put part fields column n }
{
    match part {
        Part::Thread => Ok(Fields {
            thread: n,
            thread_column: column,
            ..fields
        }),
        Part::Address => Ok(Fields {
            address: Address { number: n },
            address_column: column,
            ..fields
        }),
        Part::SameAddress => if (Address { number: n }) == fields.address {
            Ok(fields)
        } else {
            Err(Cause::OtherAddress)
        },
        Part::Read => Ok(Fields { read: n, ..fields }),
        Part::Written => Ok(Fields {
            written: n,
            ..fields
        }),
        Part::Fixed(_) | Part::LineEnd => Ok(fields),
    }
}

// The fields once a token stands where `part` is wanted, or why it does not fit.
fn accept(part: Part, fields: Fields, located: Located) -> Result<Fields, Cause>
    ensures { result ≡ accepted part fields located.entry.column (tok located.entry.token) }
{
    match part {
        Part::Fixed(symbol) if is_symbol(located.token, symbol) => Ok(fields),
        Part::LineEnd if is_end(located.token) => Ok(fields),
        Part::Fixed(_) | Part::LineEnd => Err(Cause::Misfit),
        Part::Thread | Part::Address | Part::SameAddress | Part::Read | Part::Written => {
            put_number(part, fields, located.column, number_in(located.token)?)
        }
    }
}

impl Located<'_> {
    // What came out at this token, its cause as a fault here.
    fn placed<T>(self, outcome: Result<T, Cause>) -> Result<T, Fault>
        ensures { MatchResult result (λ x. outcome ≡ Ok x) (λ e. (outcome ≡ Err e.cause) × (e.line ≡ self.entry.line) × (e.column ≡ self.entry.column)) }
    {
        outcome.map_err(|cause| Fault {
            cause,
            line: self.line,
            column: self.column,
        })
    }
}

impl Reader<'_> {
    // Reads the parts of a form, one token each.
    #[inline(always)]
    #[tactic(auto, using(crate::proofs::Parting::parts_more, crate::proofs::Parting::parts_all))]
    fn parts(&mut self, form: &[Part], start: Fields) -> Result<Fields, Fault>
        ensures { Gives (parts form.now start (at self.old)) result (at self.new) }
    {
        let mut fields = start;
        for part in form {
            let located = self.next_token();
            fields = located.placed(accept(*part, fields, located))?;
        }
        Ok(fields)
    }

    // The statement of a kind whose parts are the rest of the line.
    #[inline(always)]
    fn finish(&mut self, kind: Kind, form: &[Part], fields: Fields) -> Result<Statement, Fault>
        ensures { result ≡ statement kind (parts form.now fields (at self.old)) }
    {
        let fields = self.parts(form, fields)?;
        Ok(Statement { kind, fields })
    }

    // What stands behind the address of a load or a store.
    #[inline(always)]
    fn access(&mut self, fields: Fields) -> Result<Statement, Fault>
        ensures { result ≡ accessed fields (at self.old) }
    {
        let located = self.next_token();
        match located.token {
            Token::Fixed(Symbol::Equals) => {
                self.finish(Kind::Load, &[Part::Read, Part::LineEnd], fields)
            }
            Token::Fixed(Symbol::Assign) => {
                self.finish(Kind::Store, &[Part::Written, Part::LineEnd], fields)
            }
            _ => located.placed(Err(Cause::Misfit)),
        }
    }

    // What stands behind the `<` of a swap.
    fn swap(&mut self, fields: Fields) -> Result<Statement, Fault>
        ensures { result ≡ statement Swap (parts swap_parts fields (at self.old)) }
    {
        let swap = [
            Part::Fixed(Symbol::Memory),
            Part::Fixed(Symbol::Open),
            Part::Address,
            Part::Fixed(Symbol::Close),
            Part::Fixed(Symbol::Equals),
            Part::Read,
            Part::Fixed(Symbol::Semicolon),
            Part::Fixed(Symbol::Memory),
            Part::Fixed(Symbol::Open),
            Part::SameAddress,
            Part::Fixed(Symbol::Close),
            Part::Fixed(Symbol::Assign),
            Part::Written,
            Part::Fixed(Symbol::Greater),
            Part::LineEnd,
        ];
        self.finish(Kind::Swap, &swap, fields)
    }

    // What stands behind the thread number and the colon.
    fn body(&mut self, fields: Fields) -> Result<Statement, Fault>
        ensures { result ≡ body fields (at self.old) }
    {
        let located = self.next_token();
        match located.token {
            Token::Fixed(Symbol::Memory) => {
                let cell = [
                    Part::Fixed(Symbol::Open),
                    Part::Address,
                    Part::Fixed(Symbol::Close),
                ];
                let fields = self.parts(&cell, fields)?;
                self.access(fields)
            }
            Token::Fixed(Symbol::Less) => self.swap(fields),
            Token::Fixed(Symbol::Sync) => self.finish(Kind::Sync, &[Part::LineEnd], fields),
            _ => located.placed(Err(Cause::Misfit)),
        }
    }

    // What the line states from its start on: nothing where it has no token.
    pub(crate) fn statement(mut self) -> Result<Option<Statement>, Fault>
        ensures { result ≡ line_from (at self.entry) }
    {
        if self.is_blank() {
            return Ok(None);
        }
        let head = [Part::Thread, Part::Fixed(Symbol::Colon)];
        let fields = self.parts(&head, NO_FIELDS)?;
        self.body(fields).map(Some)
    }
}
