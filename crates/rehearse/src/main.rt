// The program `rehearse`: plays a script (docs/REHEARSE.md) from the file that its argument names, or else from standard
// input, and prints what came out. A line that is wrong is named with its number, and the rest goes on.
#![tactic(auto)]

use calls::kinds::Call;
use calls::refusals::MOST;
use grammar::refusals::Refusal;
use keeper::Keeper;
use keeper::doing::MOST_LOGS;
use keeper::undone::Undone;
use plans::entries::{Entry, Event};
use plans::numbers::{LogNumber, Place};
use scripts::commands::Command;
use scripts::reading::parse;
use std::alloc::Global;
use std::io::Read;
use std::process::ExitCode;
use std::str::from_utf8;
use std::{env, fs, io};
use stops::Stop;
use text::places::{Position, locate};
use text::reader::read;
use tokens::faults::Fault;

// The plan if the script names none: events of a tenth of a second counted by key, and of the counts of a second the
// greatest.
const PLAN: &[u8] = b"late 10; in 100 count; key 0 in 1000 greatest";

// A script as far as it was played.
#[derive(Drop)]
struct Play<'a> {
    rt: &'a HostRuntime,
    // the number of the line that is played
    at: u64,
    // the text of the plan, with which the keeper begins again when the number of logs is said
    text: Vec<u8>,
    logs: u16,
    keeper: Keeper,
    // whether a call was made: plan and logs then stay as they are
    called: bool,
}

fn main(rt: HostRuntime) -> ExitCode {
    let Err(stop) = run(&rt) else {
        return ExitCode::SUCCESS;
    };
    // Where standard error is closed too, the status alone says it.
    let _told = tell(&rt, &stop);
    ExitCode::FAILURE
}

// What was not said yet of why the program ends. The program `plan` has the same under its name: what is printed has no contract
// that could pin it, so it is no library's function.
fn tell(rt: &HostRuntime, stop: &Stop) -> io::Result<()> {
    match stop.unsaid() {
        Some(why) => eprintln!(rt; "rehearse: {why}"),
        None => Ok(()),
    }
}

fn run(rt: &HostRuntime) -> Result<(), Stop> {
    let script = input(rt)?;
    let mut play = begin(rt)?;
    for (at, line) in (1..u64::MAX).zip(script.as_slice().split(|c| *c == b'\n')) {
        play.at = at;
        play.line(line)?;
    }
    Ok(())
}

// The bytes of the file that the first argument names, or of standard input. The program `plan` has the same: what is read
// from outside has no contract that could pin it, so it is no library's function.
fn input(rt: &HostRuntime) -> Result<Vec<u8>, Stop> {
    let mut names = env::args(rt)?.skip(1);
    if let Some(name) = names.next() {
        return Ok(fs::read(rt, name.as_str())?);
    }
    let mut bytes = Vec::new(rt.alloc());
    rt.stdin().read_to_end(&mut bytes)?;
    Ok(bytes)
}

fn begin(rt: &HostRuntime) -> Result<Play<'_>, Stop> {
    let heap = rt.alloc();
    let plan = read(heap, PLAN).map_err(|_| Stop::Memory)?;
    Ok(Play {
        rt,
        at: 0,
        text: Vec::from_slice(heap, PLAN)?,
        logs: 1,
        keeper: Keeper::begin(heap, plan, 1)?,
        called: false,
    })
}

impl Play<'_> {
    fn line(&mut self, line: &[u8]) -> Result<(), Stop> {
        match parse(line) {
            Ok(Command::Nothing) => {}
            Ok(Command::Plan { at: from }) => self.plan(line, from)?,
            Ok(Command::PlanFile { at: from }) => self.plan_file(line, from)?,
            Ok(Command::Logs { count }) => self.logs(count)?,
            Ok(Command::Put { log, entry }) => self.put(log, entry)?,
            Ok(Command::All) => self.all()?,
            Ok(Command::Out { from, most }) => self.out(from, most)?,
            Ok(Command::Drop { before }) => self.drop_before(before)?,
            Err(complaint) => println!(self.rt; "line {}: {complaint}", self.at)?,
        }
        Ok(())
    }

    // plan TEXT
    fn plan(&mut self, line: &[u8], from: usize) -> Result<(), Stop> {
        let text = &line[from.min(line.len())..];
        if self.called {
            return self.say("a plan comes before the first call");
        }
        let Err(fault) = self.begin(self.rt.alloc(), text) else {
            return Ok(());
        };
        let Refusal { at, why } = refused(fault)?;
        let column = at.saturating_add(from).saturating_add(1);
        Ok(println!(self.rt; "line {}, column {column}: {why}", self.at)?)
    }

    // plan-file NAME
    fn plan_file(&mut self, line: &[u8], from: usize) -> Result<(), Stop> {
        let name = line[from.min(line.len())..].trim_ascii();
        let Ok(name) = from_utf8(name) else {
            return self.say("the plan's file cannot be read");
        };
        let Ok(text) = fs::read(self.rt, name) else {
            return self.say("the plan's file cannot be read");
        };
        if self.called {
            return self.say("a plan comes before the first call");
        }
        let Err(fault) = self.begin(self.rt.alloc(), text.as_slice()) else {
            return Ok(());
        };
        let Refusal { at, why } = refused(fault)?;
        let Position { line: row, column } = locate(text.as_slice(), at);
        Ok(println!(self.rt;
            "line {}: {name}, line {row}, column {column}: {why}",
            self.at
        )?)
    }

    // Begins anew with the plan that the text is. Where it is none, nothing changes.
    fn begin(&mut self, heap: Global, text: &[u8]) -> Result<(), Fault> {
        let plan = read(heap, text)?;
        self.keeper = Keeper::begin(heap, plan, self.logs)?;
        self.text = Vec::from_slice(heap, text)?;
        Ok(())
    }

    // logs N
    fn logs(&mut self, count: u64) -> Result<(), Stop> {
        if self.called {
            return self.say("logs are counted before the first call");
        }
        let Ok(count @ 1..=MOST_LOGS) = u16::try_from(count) else {
            return self.say("there are 1 to 256 logs");
        };
        let plan = read(self.rt.alloc(), self.text.as_slice()).map_err(|_| Stop::Memory)?;
        self.keeper = Keeper::begin(self.rt.alloc(), plan, count)?;
        self.logs = count;
        Ok(())
    }

    // put L T K V, still L T
    fn put(&mut self, log: u64, entry: Entry) -> Result<(), Stop> {
        self.called = true;
        let Ok(log) = u8::try_from(log) else {
            return self.say("a log is 0 to 255");
        };
        let put = self.keeper.put(LogNumber(log), entry);
        put.or_else(|undone| self.tell_undone(undone))
    }

    // out: all that came out
    fn all(&mut self) -> Result<(), Stop> {
        self.called = true;
        for from in (0..u64::MAX).step_by(usize::from(MOST)) {
            let part = match self.keeper.out(self.rt.alloc(), Place(from), MOST) {
                Ok(part) => part,
                Err(undone) => return self.tell_undone(undone),
            };
            self.print_events(from, part.as_slice())?;
            if part.len() < usize::from(MOST) {
                break;
            }
        }
        Ok(())
    }

    // out FROM MOST
    fn out(&mut self, from: u64, most: u64) -> Result<(), Stop> {
        self.called = true;
        let Ok(most) = u16::try_from(most) else {
            return self.say("at most 65535 are asked for");
        };
        match self.keeper.out(self.rt.alloc(), Place(from), most) {
            Ok(part) => self.print_events(from, part.as_slice()),
            Err(undone) => self.tell_undone(undone),
        }
    }

    // drop BEFORE
    fn drop_before(&mut self, before: u64) -> Result<(), Stop> {
        self.called = true;
        let before = Place(before);
        let checked = (Call::Drop { before }).check(self.logs);
        checked.or_else(|why| self.tell_undone(Undone::Refused(why)))
    }

    // Each event on a line: its place, time, key and value.
    fn print_events(&self, from: u64, events: &[Event]) -> Result<(), Stop> {
        for (place, event) in (from..=u64::MAX).zip(events) {
            let Event { time, key, value } = *event;
            println!(self.rt; "{place}: {} {} {}", time.0, key.0, value.0)?;
        }
        Ok(())
    }

    // Something about the line.
    fn say(&self, what: &str) -> Result<(), Stop> {
        Ok(println!(self.rt; "line {}: {what}", self.at)?)
    }

    // Why a call was not done: the number of its refusal. Plans that are read are within their limits, so else only memory
    // can be wanting.
    fn tell_undone(&self, undone: Undone) -> Result<(), Stop> {
        match undone {
            Undone::Refused(why) => {
                let number = u8::from(why);
                Ok(println!(self.rt; "line {}: refused, {number}", self.at)?)
            }
            Undone::BadPlan | Undone::Memory => Err(Stop::Memory),
        }
    }
}

// What a text is refused for, if it was not memory that ran out.
fn refused(fault: Fault) -> Result<Refusal, Stop> {
    match fault {
        Fault::Memory => Err(Stop::Memory),
        Fault::Refused(refusal) => Ok(refusal),
    }
}
