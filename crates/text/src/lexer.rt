// Lines and tokens from bytes.
ghost use Rattle.std.specs.Iterator.{YieldsFirstBy, item_count};
ghost use Rattle.std.specs.List.{position_or_len};
ghost use Rattle.std.specs.Prelude.{◌≡◌, ◌+◌, ◌≤◌, length, drop, option_map, IfSome, ◌==◌};
ghost use Rattle.text.specs.Lines.{is_end};
ghost use Rattle.text.specs.Places.{at, left, starts, tok};
ghost use Rattle.text.specs.Texts.{lines_of};
ghost use Rattle.text.specs.Tokens.{digits, next_token, on, past, skipped, spaces, symbol_at, symbol_width, token, width};

use crate::reader::{Lines, Reader};
use crate::token::{Located, Symbol, Token};
use traces::first_equal;

// How many digits `bytes` begins with.
fn digits(bytes: &[u8]) -> usize
    ensures count { result ≡ digits bytes.now }
    ensures within { result ≤ length bytes.now }
{
    bytes.iter().take_while(|b| b.is_ascii_digit()).count()
}

// How many spaces `bytes` begins with. Two chains of one line are plainer than a trait with a type for each test.
fn spaces(bytes: &[u8]) -> usize
    ensures count { result ≡ spaces bytes.now }
    ensures within { result ≤ length bytes.now }
{
    bytes.iter().take_while(|b| **b == b' ').count()
}

// The symbol that `bytes` begins with, as long as possible, and the rest.
fn symbol_at<'a>(bytes: &'a [u8]) -> Option<(Symbol, &'a [u8])>
    ensures is { option_map (λ x. x.0) result ≡ symbol_at bytes.now }
    ensures rest { IfSome result (λ x. x.1.now ≡ drop (symbol_width x.0) bytes.now) }
    ensures within { IfSome result (λ x. symbol_width x.0 ≤ length bytes.now) }
{
    match bytes {
        [b':', b'=', rest @ ..] => Some((Symbol::Assign, rest)),
        [b':', rest @ ..] => Some((Symbol::Colon, rest)),
        [b'=', b'=', rest @ ..] => Some((Symbol::Equals, rest)),
        [b'M', rest @ ..] => Some((Symbol::Memory, rest)),
        [b'[', rest @ ..] => Some((Symbol::Open, rest)),
        [b']', rest @ ..] => Some((Symbol::Close, rest)),
        [b'<', rest @ ..] => Some((Symbol::Less, rest)),
        [b'>', rest @ ..] => Some((Symbol::Greater, rest)),
        [b';', rest @ ..] => Some((Symbol::Semicolon, rest)),
        [b's', b'y', b'n', b'c', rest @ ..] => Some((Symbol::Sync, rest)),
        _ => None,
    }
}

// The token that the rest of a line begins with, and how many bytes it has.
fn token_at<'a>(bytes: &'a [u8]) -> (Token<'a>, usize)
    ensures token { tok result.0 ≡ token bytes.now }
    ensures width { result.1 ≡ width (token bytes.now) }
    ensures within { result.1 ≤ length bytes.now }
{
    if bytes.is_empty() {
        return (Token::LineEnd, 0);
    }
    let n = digits(bytes);
    if n > 0 {
        return (Token::Digits(&bytes[..n]), n);
    }
    match symbol_at(bytes) {
        Some((symbol, rest)) => (Token::Fixed(symbol), bytes.len() - rest.len()),
        None => (Token::Unknown, 0),
    }
}

// How many bytes the first line of a text has, without its line feed.
#[tactic(auto, using(crate::proofs::Lining::line_found))]
fn line_len(text: &[u8]) -> usize
    ensures len { result ≡ position_or_len (λ b. b == 10) text.now }
    ensures within { result ≤ length text.now }
{
    first_equal(text, &b'\n').unwrap_or(text.len())
}

impl<'a> Lines<'a> {
    // All lines of a text.
    pub(crate) fn new(text: &'a [u8]) -> Lines<'a>
        ensures { left result ≡ starts 1 (lines_of text.now) }
    {
        Lines {
            text,
            place: 0,
            line: 1,
        }
    }
}

// Gives a reader at the start of each line.
impl<'a> Iterator for Lines<'a> {
    type Item = Reader<'a>;

    ghost next_gives = { YieldsFirstBy at left };

    ghost remaining = { item_count left };

    #[tactic(auto, using(crate::proofs::Lining::starts_none, crate::proofs::Lining::starts_more))]
    fn next(&mut self) -> Option<Reader<'a>> {
        if self.place >= self.text.len() {
            return None;
        }
        let end = self.place + line_len(&self.text[self.place..]);
        let reader = Reader {
            text: &self.text[..end],
            place: self.place,
            line: self.line,
            column: 1,
        };
        self.place = end + 1;
        self.line += 1;
        Some(reader)
    }
}

impl<'a> Reader<'a> {
    // Goes `count` bytes on.
    fn advance(&mut self, count: usize)
        requires { self.old.place + count ≤ length self.old.text.now }
        ensures at { at self.new ≡ on count (at self.old) }
        ensures text { self.new.text ≡ self.old.text }
    {
        self.place += count;
        self.column += count;
    }

    // Whether nothing but spaces is left.
    pub(crate) fn is_blank(&self) -> bool
        ensures { result ≡ is_end (next_token (at self.now)) }
    {
        let rest = &self.text[self.place..];
        spaces(rest) == rest.len()
    }

    // The next token, past the spaces before it.
    #[tactic(auto, using(std::proofs::lemmas::List::take_rest))]
    pub(crate) fn next_token(&mut self) -> Located<'a>
        ensures token { tok result.token ≡ next_token (at self.old) }
        ensures line { result.line ≡ self.old.line }
        ensures column { result.column ≡ (skipped (at self.old)).column }
        ensures at { at self.new ≡ past (at self.old) }
    {
        let spaces = spaces(&self.text[self.place..]);
        self.advance(spaces);
        let line = self.line;
        let column = self.column;
        let (token, width) = token_at(&self.text[self.place..]);
        self.advance(width);
        Located {
            token,
            line,
            column,
        }
    }
}
