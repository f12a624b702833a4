// Where a place of a text is, for people: its line and its column.
ghost use Rattle.std.specs.Prelude.{◌≡◌};
ghost use Rattle.text.specs.Position.{position_of};

// Both count from 1; a column counts bytes.
#[derive(Clone, Copy, PartialEq, Eq, Debug)]
pub struct Position {
    pub line: usize,
    pub column: usize,
}

// The line and the column of the byte at `at`.
pub fn locate(text: &[u8], at: usize) -> Position
    ensures { result ≡ position_of text.now at }
{
    let mut line = 1;
    let mut column = 1;
    for c in &text[..at.min(text.len())] {
        if *c == b'\n' {
            line += 1;
            column = 1;
        } else {
            column += 1;
        }
    }
    Position { line, column }
}
