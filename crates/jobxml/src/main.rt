// The program: what the arguments ask for goes to standard output, and what went wrong to standard error.
#![tactic(auto)]

use reports::{Command, HELP, Input, Report, Usage, parse, scopes_report};
use std::fmt::Display;
use std::io::Read;
use std::process::ExitCode;
use std::{env, fs, io};

// What went wrong stands on standard error or in the report already, so the status is all that is left to give.
#[derive(Clone, Copy)]
struct Failed;

// Where standard error fails too, there is nowhere left to say so.
fn say_fault(rt: &HostRuntime, what: &str, name: impl Display + Drop, fault: io::Error) -> Failed {
    let _ = eprintln!(rt; "jobxml: cannot {what} {name}: {fault}; see jobxml --help");
    Failed
}

fn say_usage(rt: &HostRuntime, usage: Usage<'_>) -> Failed {
    let _ = eprint!(rt; "{usage}");
    Failed
}

fn print_text(rt: &HostRuntime, text: &str) -> Result<(), Failed> {
    rt.print(text)
        .map_err(|e| say_fault(rt, "write", "to standard output", e))
}

fn read_standard(rt: &HostRuntime) -> io::Result<Vec<u8>> {
    let mut bytes = Vec::new(rt.alloc());
    rt.stdin().read_to_end(&mut bytes)?;
    Ok(bytes)
}

fn read_input(rt: &HostRuntime, input: Input<'_>) -> Result<Vec<u8>, Failed> {
    let read = match input {
        Input::Standard => read_standard(rt),
        Input::File(file) => fs::read(rt, file),
    };
    read.map_err(|e| say_fault(rt, "read", input, e))
}

fn make_report(rt: &HostRuntime, listing: &[u8]) -> Result<Report, Failed> {
    scopes_report(rt.alloc(), listing).map_err(|e| say_fault(rt, "make", "the report", e.into()))
}

fn print_scopes(rt: &HostRuntime, listing: &[u8]) -> Result<(), Failed> {
    let report = make_report(rt, listing)?;
    print_text(rt, report.text.as_str())?;
    if report.complete { Ok(()) } else { Err(Failed) }
}

fn run(rt: &HostRuntime, command: Command<'_>) -> Result<(), Failed> {
    match command {
        Command::Help => print_text(rt, HELP),
        Command::Scopes(input) => {
            let listing = read_input(rt, input)?;
            print_scopes(rt, listing.as_slice())
        }
    }
}

fn words_given(rt: &HostRuntime) -> io::Result<Vec<String>> {
    Ok(env::args(rt)?.skip(1).collect(rt.alloc())?)
}

fn run_words(rt: &HostRuntime) -> Result<(), Failed> {
    let words = words_given(rt).map_err(|e| say_fault(rt, "read", "the arguments", e))?;
    let command = parse(words.as_slice()).map_err(|usage| say_usage(rt, usage))?;
    run(rt, command)
}

// An error of `main` would be printed once more, so the status is returned.
fn main(rt: HostRuntime) -> ExitCode {
    match run_words(&rt) {
        Ok(()) => ExitCode::SUCCESS,
        Err(Failed) => ExitCode::FAILURE,
    }
}
