// The tokens of a line.

// The tokens that are spelled in one way.
#[derive(Clone, Copy, PartialEq)]
pub enum Symbol {
    Colon,
    Assign,
    Equals,
    Memory,
    Open,
    Close,
    Less,
    Greater,
    Semicolon,
    Sync,
}

// What stands at a place of a line. A run of digits is borrowed from the text.
#[derive(Clone, Copy)]
pub enum Token<'a> {
    Digits(&'a [u8]),
    Fixed(Symbol),
    LineEnd,
    Unknown,
}

// A token and where it begins, in two numbers as in `Fault`, since no function takes the two without the rest.
#[derive(Clone, Copy)]
pub struct Located<'a> {
    pub token: Token<'a>,
    pub line: usize,
    pub column: usize,
}
