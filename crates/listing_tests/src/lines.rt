// Tests of `next_line`, and of `Shown` read back from a line.
use listing::{ListedToken, Shown, lines_of, next_line, read_token};
use std::test::Fail;

#[test]
fn first_lines(rt: HostRuntime) {
    let cases: [(&[u8], &[u8], &[u8]); 7] = [
        (b"", b"", b""),
        (b"a", b"a", b""),
        (b"a\n", b"a", b""),
        (b"a\r\nb\n", b"a", b"b\n"),
        (b"\n\nb", b"", b"\nb"),
        (b"a\rb\r\r\nc", b"a\rb\r", b"c"),
        (b"a\r", b"a", b""),
    ];
    for (text, line, rest) in cases {
        let (found, after) = next_line(text);
        assert_eq!(rt; found, line);
        assert_eq!(rt; after, rest);
    }
}

// A loop over a text comes to its end, since `next_line` says that the rest is shorter.
#[test]
fn all_lines(rt: HostRuntime) -> Result<(), Fail> {
    let mut rest: &[u8] = b"start a\r\n\nend a\neof";
    let mut count = 0u32;
    let mut bytes = 0usize;
    while !rest.is_empty() {
        let (line, after) = next_line(rest);
        count = count.saturating_add(1);
        bytes = bytes.saturating_add(line.len());
        rest = after;
    }
    assert_eq!(rt; count, 4);
    assert_eq!(rt; bytes, 15);
    Ok(())
}

#[test]
fn numbered_lines(rt: HostRuntime) {
    let lines: [&[u8]; 4] = [b"start a", b"", b"end a", b"eof"];
    let text = b"start a\r\n\nend a\neof\n";
    for (i, line) in lines_of(text).enumerate() {
        assert!(rt; lines.get(i).copied() == Some(line));
    }
    assert_eq!(rt; lines_of(text).count(), 4);
}

#[test]
fn shown_reads_back(rt: HostRuntime) -> Result<(), Fail> {
    let heap = rt.alloc();
    let texts: [&[u8]; 6] = [
        b"",
        b"a \"b\" \\ c:d=e # -",
        b"\x00\t\n\r\x1b\x7f",
        b"\xc3\xa9 \xe2\x82\xac",
        b"\xff\xc3 \\x41",
        b"\\e",
    ];
    for text in texts {
        let shown = Shown(text);
        let line = format!(in heap; "text \"{shown}\"")?;
        match read_token(heap, line.as_bytes())? {
            Some(ListedToken::Characters(found)) => assert_eq!(rt; found.as_slice(), text),
            _ => return Err(Fail::new("not read as a text")),
        }
    }
    Ok(())
}
