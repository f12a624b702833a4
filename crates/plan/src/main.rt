// The program `plan`: reads a plan from the file that its argument names, or else from standard input, and prints it as
// docs/PLANS.md says; or says on standard error where and why it is none, and ends with status 1.
#![tactic(auto)]

ghost use Rattle.std.specs.Prelude.{◌≡◌, ◌-◌, ◌<◌, ◌≤◌, length, slice_index};
ghost use Rattle.plan.specs.Lines.{NoLineEnd};

use grammar::refusals::Refusal;
use print::print;
use std::io::{Read, Write};
use std::process::ExitCode;
use std::{env, fs, io};
use stops::Stop;
use text::places::{Position, locate};
use text::reader::read;
use tokens::faults::Fault;

fn main(rt: HostRuntime) -> ExitCode {
    let Err(stop) = run(&rt) else {
        return ExitCode::SUCCESS;
    };
    // Where standard error is closed too, the status alone says it.
    let _told = tell(&rt, &stop);
    ExitCode::FAILURE
}

// What was not said yet of why the program ends. The program `rehearse` has the same under its name: what is printed has no contract
// that could pin it, so it is no library's function.
fn tell(rt: &HostRuntime, stop: &Stop) -> io::Result<()> {
    match stop.unsaid() {
        Some(why) => eprintln!(rt; "plan: {why}"),
        None => Ok(()),
    }
}

fn run(rt: &HostRuntime) -> Result<(), Stop> {
    let bytes = input(rt)?;
    match read(rt.alloc(), bytes.as_slice()) {
        Ok(plan) => {
            let mut out = print(rt.alloc(), &plan)?;
            out.extend_from_slice(b"\n")?;
            rt.stdout().write_all(out.as_slice())?;
            Ok(())
        }
        Err(Fault::Memory) => Err(Stop::Memory),
        Err(Fault::Refused(refusal)) => {
            complain(rt, bytes.as_slice(), refusal)?;
            Err(Stop::Said)
        }
    }
}

// The bytes of the file that the first argument names, or of standard input. The program `rehearse` has the same: what is
// read from outside has no contract that could pin it, so it is no library's function.
fn input(rt: &HostRuntime) -> Result<Vec<u8>, Stop> {
    let mut names = env::args(rt)?.skip(1);
    if let Some(name) = names.next() {
        return Ok(fs::read(rt, name.as_str())?);
    }
    let mut bytes = Vec::new(rt.alloc());
    rt.stdin().read_to_end(&mut bytes)?;
    Ok(bytes)
}

// Line, column and reason, then the line and a caret under the place.
fn complain(rt: &HostRuntime, bytes: &[u8], refusal: Refusal) -> Result<(), Stop> {
    let at = refusal.at.min(bytes.len());
    let Position { line, column } = locate(bytes, at);
    let why = refusal.why;
    eprintln!(rt; "line {line}, column {column}: {why}")?;
    let (before, behind) = bytes.split_at(at);
    let before = &before[last_line(before)..];
    let mut shown = before.to_vec(rt.alloc())?;
    shown.extend_from_slice(&behind[..first_line(behind)])?;
    shown.push(b'\n')?;
    for c in before {
        shown.push(if *c == b'\t' { b'\t' } else { b' ' })?;
    }
    shown.extend_from_slice(b"^\n")?;
    rt.stderr().write_all(shown.as_slice())?;
    Ok(())
}

// Where the last line of some bytes begins.
fn last_line(bytes: &[u8]) -> usize
    ensures within { result ≤ length bytes.now }
    ensures line { NoLineEnd bytes.now result (length bytes.now) }
    ensures first { 0 < result → slice_index bytes.now (result - 1) ≡ 10 }
{
    let line_end = bytes.iter().rposition(|c| *c == b'\n');
    line_end.map_or(0, |i| i + 1)
}

// Where the first line of some bytes ends, before its line end.
fn first_line(bytes: &[u8]) -> usize
    ensures within { result ≤ length bytes.now }
    ensures line { NoLineEnd bytes.now 0 result }
    ensures last { result < length bytes.now → slice_index bytes.now result ≡ 10 }
{
    let line_end = bytes.iter().position(|c| *c == b'\n');
    line_end.unwrap_or(bytes.len())
}
