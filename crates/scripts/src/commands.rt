// What a line of a script says, and what may be wrong with it.
use plans::entries::Entry;
use std::fmt;

#[derive(Clone, Copy, PartialEq, Eq, Debug)]
pub enum Command {
    // A line with nothing on it, or only a comment.
    Nothing,
    // The plan whose text stands from this place of the line on.
    Plan { at: usize },
    // The plan in the file whose name stands from this place of the line on.
    PlanFile { at: usize },
    // How many logs there are.
    Logs { count: u64 },
    // An entry put into a log.
    Put { log: u64, entry: Entry },
    // All that came out.
    All,
    // What came out, from a place on, so many at most.
    Out { from: u64, most: u64 },
    // What came out before a place is not needed any more.
    Drop { before: u64 },
}

// The numbers that commands have.
#[derive(Clone, Copy, PartialEq, Eq, Debug)]
pub enum Field {
    Count,
    Log,
    Time,
    Key,
    Value,
    From,
    Most,
    Before,
}

// What is wrong with a line.
#[derive(Clone, Copy, PartialEq, Eq, Debug)]
pub enum Complaint {
    // Its first word is no command.
    Unknown,
    // Where this should stand there is no number below 2^64.
    NoNumber(Field),
    // Something stands behind the command.
    Extra,
}

impl fmt::Display for Field {
    fn fmt<W: fmt::Write>(&self, f: &mut fmt::Formatter<W>) -> fmt::Result {
        f.write_str(match self {
            Field::Count => "how many logs",
            Field::Log => "the log",
            Field::Time => "the time",
            Field::Key => "the key",
            Field::Value => "the value",
            Field::From => "from where",
            Field::Most => "how many",
            Field::Before => "before what",
        })
    }
}

impl fmt::Display for Complaint {
    fn fmt<W: fmt::Write>(&self, f: &mut fmt::Formatter<W>) -> fmt::Result {
        match self {
            Complaint::Unknown => f.write_str("unknown command"),
            Complaint::NoNumber(field) => write!(f, "expected a number: {field}"),
            Complaint::Extra => f.write_str("something stands behind the command"),
        }
    }
}
