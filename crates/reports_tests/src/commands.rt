// Tests of what the arguments ask for.
use reports::{Command, parse};
use std::alloc::{AllocError, Global};
use std::process::Abort;
use std::test::Fail;

// What is to be done, in a notation of the tests' own, or the message.
fn asked(heap: Global, line: &str) -> Result<String, AllocError> {
    let words: Vec<String> = line
        .split_whitespace()
        .map(|word| String::from_str(heap, word))
        .try_collect(heap)?;
    match parse(words.as_slice()) {
        Ok(Command::Help) => String::from_str(heap, "help"),
        Ok(Command::Scopes(input)) => format!(in heap; "scopes of {input}"),
        Err(usage) => format!(in heap; "{usage}"),
    }
}

fn check_all(rt: &(impl AllocGlobal + Abort), cases: &[(&str, &str)]) -> Result<(), Fail> {
    for (line, wanted) in cases {
        let found = asked(rt.alloc(), line)?;
        assert_eq!(rt; found.as_str(), *wanted);
    }
    Ok(())
}

#[test]
fn known_words(rt: HostRuntime) -> Result<(), Fail> {
    check_all(
        &rt,
        &[
            ("help", "help"),
            ("--help", "help"),
            ("-h", "help"),
            ("help scopes", "help"),
            ("scopes --help", "help"),
            ("scopes -h", "help"),
            ("scopes a --help", "help"),
            ("scopes", "scopes of standard input"),
            ("scopes -", "scopes of standard input"),
            ("scopes a.tokens", "scopes of \"a.tokens\""),
        ],
    )
}

#[test]
fn unknown_words(rt: HostRuntime) -> Result<(), Fail> {
    check_all(
        &rt,
        &[
            ("", reports::HELP),
            (
                "scope a",
                "jobxml: there is no subcommand \"scope\", only scopes and help; see jobxml --help\n",
            ),
            (
                "--version",
                "jobxml: there is no option \"--version\", only --help (a file of that name is given as ./NAME); see jobxml --help\n",
            ),
            (
                "scopes -x",
                "jobxml: there is no option \"-x\", only --help (a file of that name is given as ./NAME); see jobxml --help\n",
            ),
            (
                "scopes a b",
                "jobxml: scopes reads one FILE, and \"b\" is one too many; see jobxml --help\n",
            ),
        ],
    )
}
