// The program `boxes`: plays a book by commands, one a line, over memory that is lent as to a worker, and prints a checksum of each box
// that it fills. docs/BOXES.md has the commands.
#![tactic(auto)]

mod memory;
mod puts;
mod steps;
mod store;

use crate::memory::{LedgerMemory, PlatesMemory};
use crate::puts::{Batch, Put, put_in};
use crate::steps::{step, take_log};
use crate::store::{load, log, page, write_down, write_events, write_rows, write_segments};
use book::box_of_log;
use ledgers::Ledger;
use logs::served::{Life, Serial, Served, WorkerNumber};
use plans::entries::{Entry, Event};
use plans::numbers::{EventCount, Key, LogNumber, OutPage, Time, Value};
use plans::stages::Plan;
use segs::segment::PageNumber;
use sizes::Sizes;
use spills::pages::{Pages, Spilt};
use std::collections::BTreeMap;
use std::io;
use std::io::Read;
use std::process::ExitCode;
use stops::Stop;
use tables::Table;
use text::reader::read;
use tokens::{number, skip, split_word};
use turns::plates::{Plates, Written};
use turns::task::wanted;

// More words than any box has that the program fills.
const MOST_WORDS: usize = 24_000;

// The store, the plan and the batch that is being made.
#[derive(Drop)]
struct Play<'a> {
    rt: &'a HostRuntime,
    plan: Plan,
    logs: usize,
    boxes: BTreeMap<u64, Vec<u64>>,
    // boxes as they were when they were kept
    kept: BTreeMap<u64, Vec<u64>>,
    batch: Vec<Entry>,
}

fn main(rt: HostRuntime) -> ExitCode {
    let Err(stop) = run(&rt) else {
        return ExitCode::SUCCESS;
    };
    // Where standard error is closed too, the status alone says it.
    let _told = tell(&rt, &stop);
    ExitCode::FAILURE
}

fn tell(rt: &HostRuntime, stop: &Stop) -> io::Result<()> {
    match stop.unsaid() {
        Some(why) => eprintln!(rt; "boxes: {why}"),
        None => Ok(()),
    }
}

fn run(rt: &HostRuntime) -> Result<(), Stop> {
    let heap = rt.alloc();
    let mut script = Vec::new(heap);
    rt.stdin().read_to_end(&mut script)?;
    let mut play = Play {
        rt,
        plan: read(heap, b"late 0; in 1 count").map_err(|_| Stop::Memory)?,
        logs: 1,
        boxes: BTreeMap::new(heap),
        kept: BTreeMap::new(heap),
        batch: Vec::new(heap),
    };
    for line in script.as_slice().split(|c| *c == b'\n') {
        play.line(line)?;
    }
    Ok(())
}

// As many numbers as are wanted.
fn numbers_of<const N: usize>(line: &[u8]) -> Option<[u64; N]> {
    let mut numbers = [0; N];
    let mut rest = line;
    for place in &mut numbers {
        let (n, behind) = number(rest).ok()?;
        *place = n;
        rest = behind;
    }
    Some(numbers)
}

// A number that words come to, so that two programs can be compared without all words.
fn checksum(words: &[u64]) -> u64 {
    let mut sum: u64 = 14_695_981_039_346_656_037;
    for word in words {
        sum = (sum ^ *word).wrapping_mul(1_099_511_628_211);
    }
    sum
}

impl Play<'_> {
    fn line(&mut self, line: &[u8]) -> Result<(), Stop> {
        let (word, rest) = split_word(skip(line));
        match word {
            b"" => Ok(()),
            b"plan" => self.plan(rest),
            b"logs" => self.logs(rest),
            b"event" => self.event(rest),
            b"still" => self.still(rest),
            b"put" => self.put(rest),
            b"keep" => self.keep(rest),
            b"take" => self.take(rest, false),
            b"takeold" => self.take(rest, true),
            b"step" => self.step(),
            _ => self.say("unknown"),
        }
    }

    fn say(&self, what: &str) -> Result<(), Stop> {
        Ok(println!(self.rt; "{what}")?)
    }

    // Begins anew with a plan.
    fn plan(&mut self, text: &[u8]) -> Result<(), Stop> {
        let heap = self.rt.alloc();
        let Ok(plan) = read(heap, text) else {
            return self.say("no plan");
        };
        self.plan = plan;
        self.boxes = BTreeMap::new(heap);
        self.kept = BTreeMap::new(heap);
        Ok(())
    }

    fn logs(&mut self, rest: &[u8]) -> Result<(), Stop> {
        let Some(numbers) = numbers_of::<1>(rest) else {
            return self.say("1 to 256 logs");
        };
        let [count] = numbers;
        self.logs = count as usize;
        Ok(())
    }

    fn event(&mut self, rest: &[u8]) -> Result<(), Stop> {
        let Some(numbers) = numbers_of::<3>(rest) else {
            return self.say("time, key and value");
        };
        let [time, key, value] = numbers;
        let event = Event {
            time: Time(time),
            key: Key(key),
            value: Value(value),
        };
        Ok(self.batch.push(Entry::Happened(event))?)
    }

    fn still(&mut self, rest: &[u8]) -> Result<(), Stop> {
        let Some(numbers) = numbers_of::<1>(rest) else {
            return self.say("a time");
        };
        let [time] = numbers;
        Ok(self.batch.push(Entry::Still(Time(time)))?)
    }

    // A box filled with what a table holds.
    fn fill(&mut self, number: u64, words: &Table<'_, u64>) -> Result<(), Stop> {
        let words = words.as_slice();
        println!(self.rt; "box {number} {} {}", words.len(), checksum(words))?;
        self.boxes
            .insert(number, Vec::from_slice(self.rt.alloc(), words)?)?;
        Ok(())
    }

    // Of a log's box: as it was when it was kept, or as it is.
    fn log_words(&self, at: u64, old: bool) -> Option<&[u64]> {
        if old {
            return Some(self.kept.get(&at)?.as_slice());
        }
        self.words(at)
    }

    fn words(&self, number: u64) -> Option<&[u64]> {
        Some(self.boxes.get(&number)?.as_slice())
    }

    // put LOG WORKER LIFE SERIAL FLOOR: the batch that was made goes into a log.
    fn put(&mut self, rest: &[u8]) -> Result<(), Stop> {
        let Some(numbers) = numbers_of::<5>(rest) else {
            return self.say("log, worker, life, serial and floor");
        };
        let [number, worker, life, serial, floor] = numbers;
        let (Ok(number), Some(worker)) = (u8::try_from(number), WorkerNumber::new(worker as usize))
        else {
            return self.say("no such log or worker");
        };
        let batch = Batch {
            worker,
            served: Served {
                life: Life(life),
                serial: Serial(serial),
            },
            floor: EventCount(floor),
        };
        let mut words = [0; MOST_WORDS];
        let mut to = Table::new(&mut words, 0);
        let at = box_of_log(number);
        let done = put_in(
            self.words(at),
            self.batch.as_slice(),
            self.plan.late,
            batch,
            &mut to,
        );
        self.batch.clear();
        match done {
            Put::Done => self.fill(at, &to),
            Put::Full => self.say("full"),
            Put::Refused => self.say("refused"),
        }
    }

    // keep LOG: its box, as it is now, is remembered.
    fn keep(&mut self, rest: &[u8]) -> Result<(), Stop> {
        let Some(at) = box_in(rest) else {
            return self.say("no such log");
        };
        if let Some(words) = self.boxes.get(&at) {
            let words = Vec::from_slice(self.rt.alloc(), words.as_slice())?;
            self.kept.insert(at, words)?;
        }
        Ok(())
    }

    // take LOG, takeold LOG: events of its box, or of the one that is remembered, are taken into the ledger.
    fn take(&mut self, rest: &[u8], old: bool) -> Result<(), Stop> {
        let Some(numbers) = numbers_of::<1>(rest) else {
            return self.say("a log");
        };
        let [number] = numbers;
        let Ok(number) = u8::try_from(number) else {
            return self.say("no such log");
        };
        let mut memory = LedgerMemory::new();
        let mut ledger = memory.ledger();
        let none = [[0; 2]; 256];
        let Some(view) = self.log_words(box_of_log(number), old).and_then(log) else {
            return self.say("refused");
        };
        if load(self.words(0), &none[..self.logs.min(256)], &mut ledger).is_none() {
            return self.say("refused");
        }
        if take_log(&self.plan, &mut ledger, LogNumber(number), &view).is_none() {
            return self.say("refused");
        }
        self.fill_ledger(&ledger)
    }

    fn fill_ledger(&mut self, ledger: &Ledger<'_>) -> Result<(), Stop> {
        let mut words = [0; MOST_WORDS];
        let mut to = Table::new(&mut words, 0);
        match write_down(ledger, &mut to) {
            Some(()) => self.fill(0, &to),
            None => self.say("refused"),
        }
    }

    // step: what is due is done.
    fn step(&mut self) -> Result<(), Stop> {
        let mut memory = LedgerMemory::new();
        let mut ledger = memory.ledger();
        let none = [[0; 2]; 256];
        if load(self.words(0), &none[..self.logs.min(256)], &mut ledger).is_none() {
            return self.say("refused");
        }
        let Ok(Some(task)) = wanted(&ledger, self.plan.late, &Sizes::default()) else {
            return self.say("rest");
        };
        let number = task.shows().and_then(|page| box_of_page(page));
        let shown = number.and_then(|number| self.words(number)).and_then(page);
        let mut memory = PlatesMemory::new();
        let mut plates = memory.plates();
        let Some(written) = step(&self.plan, &mut ledger, shown, &mut plates) else {
            return self.say("refused");
        };
        self.fill_pages(written, &plates)?;
        self.fill_ledger(&ledger)
    }

    // The pages that a step wrote, the first first.
    fn fill_pages(&mut self, written: Written, plates: &Plates<'_>) -> Result<(), Stop> {
        let mut words = [0; MOST_WORDS];
        let mut to = Table::new(&mut words, 0);
        match written {
            Written::Nothing => Ok(()),
            Written::Out(page) => {
                let done = write_events(plates.events.as_slice(), &mut to);
                self.fill_written(box_of_out(page), done, &to)
            }
            Written::Index(page) => {
                let done = write_segments(plates.index.as_slice(), &mut to);
                self.fill_written(box_of_page(page), done, &to)
            }
            Written::Rows { first, spilt } => self.fill_rows(first, spilt, &plates.rows, &mut to),
        }
    }

    // One row page, or two that follow each other.
    fn fill_rows(
        &mut self,
        first: PageNumber,
        spilt: Spilt,
        pages: &Pages<'_>,
        to: &mut Table<'_, u64>,
    ) -> Result<(), Stop> {
        let below = match spilt {
            Spilt::One { below } => below,
            Spilt::Two => None,
        };
        let done = write_rows(below, pages.out.as_slice(), to);
        self.fill_written(box_of_page(first), done, to)?;
        if spilt == Spilt::Two {
            let second = PageNumber(first.0.saturating_add(1));
            let done = write_rows(None, pages.upper.as_slice(), to);
            self.fill_written(box_of_page(second), done, to)?;
        }
        Ok(())
    }

    // A box filled with what was written down, if it was and boxes have such numbers.
    fn fill_written(
        &mut self,
        number: Option<u64>,
        done: Option<()>,
        to: &Table<'_, u64>,
    ) -> Result<(), Stop> {
        match (number, done) {
            (Some(number), Some(())) => self.fill(number, to),
            _ => self.say("refused"),
        }
    }
}

// The box of the log that a line names.
fn box_in(line: &[u8]) -> Option<u64> {
    let numbers = numbers_of::<1>(line)?;
    let [number] = numbers;
    Some(box_of_log(u8::try_from(number).ok()?))
}

// The box of a row or index page, if boxes have such numbers.
fn box_of_page(page: PageNumber) -> Option<u64> {
    page.0.checked_mul(4)?.checked_add(2)
}

fn box_of_out(page: OutPage) -> Option<u64> {
    page.0.checked_mul(4)?.checked_add(1)
}
