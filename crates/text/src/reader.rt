// Places in a text.
ghost use Rattle.std.specs.Prelude.{◌+◌, ◌≤◌, length};

// The lines of a text from `place` on, of which the first has the number `line`. It keeps the place, which bounds that number.
#[derive(Drop)]
pub struct Lines<'a> {
    pub(crate) text: &'a [u8],
    pub(crate) place: usize,
    pub(crate) line: usize,
    ghost within: { place ≤ length text.now + 1 },
    ghost counted: { line ≤ place + 1 },
}

// Borrows the text up to the end of a line, and stands at one of that line's bytes or behind its last.
// It keeps its place and not the rest alone, since the place bounds the column.
#[derive(Drop)]
pub struct Reader<'a> {
    pub(crate) text: &'a [u8],
    pub(crate) place: usize,
    pub(crate) line: usize,
    pub(crate) column: usize,
    ghost within: { place ≤ length text.now },
    ghost counted: { column ≤ place + 1 },
}
