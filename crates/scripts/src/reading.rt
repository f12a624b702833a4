// Reading a line.
ghost use Rattle.std.specs.Prelude.{◌≡◌, ◌≤◌, ◌||◌, length};
ghost use Rattle.grammar.specs.Reading.{is as is_byte, is_end};
ghost use Rattle.scripts.specs.Lines.{alone_at, by_word, command, drop_line, logs_line, out_line, plan_at, put_line, still_line};

use crate::commands::{Command, Complaint, Field};
use crate::fields::{ends, field};
use plans::entries::{Entry, Event};
use plans::numbers::{Key, Time, Value};
use tokens::{skip, split_word, strip_word};

// The command, if nothing stands behind it.
#[tactic(auto, unfolding(crate::specs::Lines::alone_at))]
fn alone(line: &[u8], command: Command) -> Result<Command, Complaint>
    ensures { result ≡ alone_at command line.now }
{
    if ends(line) {
        Ok(command)
    } else {
        Err(Complaint::Extra)
    }
}

// put L T K V
#[tactic(auto, unfolding(crate::specs::Lines::put_line))]
fn put(line: &[u8]) -> Result<Command, Complaint>
    ensures { result ≡ put_line line.now }
{
    let (log, rest) = field(line, Field::Log)?;
    let (time, behind) = field(rest, Field::Time)?;
    let (key, behind) = field(behind, Field::Key)?;
    let (value, behind) = field(behind, Field::Value)?;
    let event = Event {
        time: Time(time),
        key: Key(key),
        value: Value(value),
    };
    let entry = Entry::Happened(event);
    alone(behind, Command::Put { log, entry })
}

// still L T
#[tactic(auto, unfolding(crate::specs::Lines::still_line))]
fn still(line: &[u8]) -> Result<Command, Complaint>
    ensures { result ≡ still_line line.now }
{
    let (log, rest) = field(line, Field::Log)?;
    let (time, rest) = field(rest, Field::Time)?;
    let entry = Entry::Still(Time(time));
    alone(rest, Command::Put { log, entry })
}

// out, or out FROM MOST
#[tactic(auto, unfolding(crate::specs::Lines::out_line))]
fn out(line: &[u8]) -> Result<Command, Complaint>
    ensures { result ≡ out_line line.now }
{
    if ends(line) {
        return Ok(Command::All);
    }
    let (from, rest) = field(line, Field::From)?;
    let (most, rest) = field(rest, Field::Most)?;
    alone(rest, Command::Out { from, most })
}

// logs N
#[tactic(auto, unfolding(crate::specs::Lines::logs_line))]
fn logs(line: &[u8]) -> Result<Command, Complaint>
    ensures { result ≡ logs_line line.now }
{
    let (count, rest) = field(line, Field::Count)?;
    alone(rest, Command::Logs { count })
}

// drop BEFORE
#[tactic(auto, unfolding(crate::specs::Lines::drop_line))]
fn drop_before(line: &[u8]) -> Result<Command, Complaint>
    ensures { result ≡ drop_line line.now }
{
    let (before, rest) = field(line, Field::Before)?;
    alone(rest, Command::Drop { before })
}

// plan TEXT, or plan-file NAME: the place of the text in the line, since people are told a column of it; a file's name too, so
// that a command borrows nothing.
#[tactic(auto, unfolding(crate::specs::Lines::plan_at))]
fn plan(line: &[u8], rest: &[u8]) -> Command
    requires { length rest.now ≤ length line.now }
    ensures { result ≡ plan_at (length line.now) rest.now }
{
    match strip_word(rest, b"-file") {
        Some(name) => Command::PlanFile {
            at: line.len() - name.len(),
        },
        None => Command::Plan {
            at: line.len() - rest.len(),
        },
    }
}

// Whether the line ends here, or a comment begins.
#[tactic(auto, using(crate::proofs::Fronts::fronts))]
fn is_silent(line: &[u8]) -> bool
    ensures { result ≡ is_end line.now || is_byte 35 line.now }
{
    matches!(line, [] | [b'#', ..])
}

// What a line says.
pub fn parse(line: &[u8]) -> Result<Command, Complaint>
    ensures { result ≡ command line.now }
{
    let start = skip(line);
    if is_silent(start) {
        return Ok(Command::Nothing);
    }
    let (word, rest) = split_word(start);
    named(line, word, rest)
}

// What its first word makes of a line.
fn named(line: &[u8], word: &[u8], rest: &[u8]) -> Result<Command, Complaint>
    requires { length rest.now ≤ length line.now }
    ensures { result ≡ by_word (length line.now) word.now rest.now }
{
    match word {
        b"put" => put(rest),
        b"still" => still(rest),
        b"out" => out(rest),
        b"plan" => Ok(plan(line, rest)),
        b"logs" => logs(rest),
        b"drop" => drop_before(rest),
        _ => Err(Complaint::Unknown),
    }
}
