// Tests of `read_token`: tables of lines, each with what it is read as.
use crate::outline::outline;
use std::alloc::AllocGlobal;
use std::process::Abort;
use std::test::Fail;

fn check_all(rt: &(impl Abort + AllocGlobal), cases: &[(&[u8], &str)]) -> Result<(), Fail> {
    for (line, wanted) in cases {
        let found = outline(rt.alloc(), line)?;
        assert_eq!(rt; found.as_str(), *wanted);
    }
    Ok(())
}

#[test]
fn keywords(rt: HostRuntime) -> Result<(), Fail> {
    check_all(
        &rt,
        &[
            (b"start job", "start <job>"),
            (b"end job", "end <job>"),
            (b"empty job", "empty <job>"),
            (b"short", "short tag"),
            (b"comment \"a b\"", "comment (a b)"),
            (b"text \"\"", "characters ()"),
            (b"instruction \"xml\" \"v=1\"", "target (xml) data (v=1)"),
            (b"null", "null character"),
            (b"eof", "end of file"),
            (b"error \"oops\"", "error (oops)"),
        ],
    )
}

#[test]
fn doctypes(rt: HostRuntime) -> Result<(), Fail> {
    check_all(
        &rt,
        &[
            (b"doctype \"job\" - -", "doctype (job) none none"),
            (b"doctype - \"\" \"a.dtd\"", "doctype none () (a.dtd)"),
            (b"doctype \"-\" - \"-\"", "doctype (-) none (-)"),
        ],
    )
}

// An absent prefix, an empty prefix, an empty local name, and colons that do not separate.
#[test]
fn names(rt: HostRuntime) -> Result<(), Fail> {
    check_all(
        &rt,
        &[
            (b"start a:b", "start <{a}b>"),
            (b"start :b", "start <{}b>"),
            (b"start xmlns:", "start <{xmlns}>"),
            (b"start :", "start <{}>"),
            (b"start \\e", "start <>"),
            (b"start \\e:b", "start <{}b>"),
            (b"start a\\:b", "start <a:b>"),
            (b"start a\\:b:c:d", "start <{a:b}c:d>"),
            (b"start a\\x20\\=\\\"b", "start <a =\\\"b>"),
            (b"start #-", "start <#->"),
        ],
    )
}

#[test]
fn attributes(rt: HostRuntime) -> Result<(), Fail> {
    check_all(
        &rt,
        &[
            (b"empty a b=\"c\" d:e=\"\"", "empty <a> b=(c) {d}e=()"),
            (
                b"end a  xmlns:=\"x\"\txmlns=\"y z\" ",
                "end <a> {xmlns}=(x) xmlns=(y z)",
            ),
            (
                b"start a \\e=\"v\" b\\=c=\"=:#\"",
                "start <a> =(v) b=c=(=:#)",
            ),
        ],
    )
}

#[test]
fn escapes(rt: HostRuntime) -> Result<(), Fail> {
    check_all(
        &rt,
        &[
            (
                b"text \"\\\\ \\\" \\: \\= \\n \\t \\r\"",
                "characters (\\\\ \\\" : = \\n \\t \\r)",
            ),
            (b"text \"a\\eb\"", "characters (ab)"),
            (b"text \"\\x41\\x6a\\x6A\"", "characters (Ajj)"),
            (
                b"text \"\\x00\\x1F\\x7f\\xFF\"",
                "characters (\\x00\\x1f\\x7f\\xff)",
            ),
            (b"text \"\xc3\xa9\"", "characters (\u{e9})"),
            (b"text \"\xc3\"", "characters (\\xc3)"),
            (b"start \xc3\xa9:\\xc3\\xa9", "start <{\u{e9}}\u{e9}>"),
        ],
    )
}

#[test]
fn blanks_and_comments(rt: HostRuntime) -> Result<(), Fail> {
    check_all(
        &rt,
        &[
            (b"", "skipped"),
            (b" \t ", "skipped"),
            (b"# start a", "skipped"),
            (b"\t #", "skipped"),
            (b" \tstart\t a ", "start <a>"),
            (b"short ", "short tag"),
        ],
    )
}

const KEYWORD: &str =
    "expected a keyword: start, end, empty, short, comment, text, instruction, doctype, null, eof or error";

const NAME: &str = "expected a name after the keyword";

const ATTRIBUTE: &str = "expected name=\"value\"";

const QUOTED: &str = "expected a text in quotes";

const PART: &str = "expected a text in quotes or - for none";

const CLOSING: &str = "expected the closing quote";

const BLANK: &str = "expected a blank after the closing quote";

const DIGITS: &str = "expected two hex digits after \\x";

const ESCAPE: &str = "expected one of \\ \" : = n t r e x after \\";

const LINE_END: &str = "expected nothing more on this line";

#[test]
fn malformed_lines(rt: HostRuntime) -> Result<(), Fail> {
    check_all(
        &rt,
        &[
            (b"<a href=\"\\q\">", KEYWORD),
            (b"Start a", KEYWORD),
            (b"text\"a\"", KEYWORD),
            (b"start", NAME),
            (b"start \"a\"", NAME),
            (b"end a=\"b\"", NAME),
            (b"text", QUOTED),
            (b"comment a", QUOTED),
            (b"instruction \"a\"", QUOTED),
            (b"doctype \"a\" -", PART),
            (b"doctype a - -", PART),
            (b"doctype \\x2d - -", PART),
            (b"doctype - - - -", LINE_END),
            (b"short x", LINE_END),
            (b"eof \"\"", LINE_END),
            (b"text \"a\" \"b\"", LINE_END),
        ],
    )
}

#[test]
fn malformed_pieces(rt: HostRuntime) -> Result<(), Fail> {
    check_all(
        &rt,
        &[
            (b"start a b", ATTRIBUTE),
            (b"start a \"b\"", ATTRIBUTE),
            (b"start a b=", ATTRIBUTE),
            (b"start a b=c", ATTRIBUTE),
            (b"start a =\"c\"", ATTRIBUTE),
            (b"start a b\"c\"", ATTRIBUTE),
            (b"start a b=\"c", CLOSING),
            (b"text \"a\\\"", CLOSING),
            (b"text \"a\"b", BLANK),
            (b"start a b=\"c\"d=\"e\"", BLANK),
            (b"text \"\\x4\"", DIGITS),
            (b"text \"\\xg0\"", DIGITS),
            (b"start a\\x4", DIGITS),
            (b"text \"\\q\"", ESCAPE),
            (b"start a\\N", ESCAPE),
            (b"start a\\", ESCAPE),
        ],
    )
}
