// Why a text is no plan, and where.
ghost use Rattle.std.specs.Prelude.{◌≡◌, Some};
ghost use Rattle.grammar.specs.Reasons.{reason};

use std::fmt;

// What was expected, or which limit was passed.
#[derive(Clone, Copy, PartialEq, Eq, Debug)]
pub enum Why {
    Long,
    Late,
    Number,
    Large,
    Joined,
    Lateness,
    Semicolon,
    Stages,
    Window,
    Size,
    Aggregate,
    Operand,
    Close,
    Deep,
    Parts,
    Chained,
}

// A reason with the offset of the byte where it was found, from 0 on.
#[derive(Clone, Copy, PartialEq, Eq, Debug)]
pub struct Refusal {
    pub at: usize,
    pub why: Why,
}

impl fmt::Display for Why {
    ghost output = { λ w. Some (reason w) };

    fn fmt<W: fmt::Write>(&self, f: &mut fmt::Formatter<W>) -> fmt::Result {
        f.write_str(self.said())
    }
}

impl Why {
    // What is said to whoever wrote the text.
    pub fn said(self) -> &'static str
        ensures { result.now ≡ reason self }
    {
        match self {
            Why::Long => "a plan has at most 65536 bytes",
            Why::Late => "expected `late`",
            Why::Number => "expected a number",
            Why::Large => "a number is below 18446744073709551616",
            Why::Joined => "a letter stands right behind a number",
            Why::Lateness => "a lateness is at most 1099511627776",
            Why::Semicolon => "expected `;`",
            Why::Stages => "a plan has at most 8 stages",
            Why::Window => "expected `in`",
            Why::Size => "a size is 1 to 1099511627776",
            Why::Aggregate => "expected `count`, `total`, `least` or `greatest`",
            Why::Operand => "expected a number, `time`, `key`, `value`, `!` or `(`",
            Why::Close => "expected `)`",
            Why::Deep => "brackets stand at most 64 deep",
            Why::Parts => "an expression has at most 64 parts",
            Why::Chained => "`<` and `=` do not chain",
        }
    }
}
