// Names, their limits, and what is made of them.
ghost use Rattle.std.specs.Prelude.{◌≡◌, Decides};

use names::{
    ErrorCode, ExpandedName, Layer, Name, NameFault, NameTable, QualName, Refusal, RefusalCode,
    Span, XML_URI, XMLNS_URI,
};
use std::process::Abort;
use std::test::Fail;

// Enters `count` texts of two bytes, none of which is built in.
fn fill(rt: &impl Abort, table: &mut NameTable, count: u16) {
    for i in 0..count {
        assert!(rt; table.enter(&i.to_be_bytes()).is_ok());
    }
}

// The refusal is number 4 of the names, at `held` names.
fn check_refused(rt: &impl Abort, answer: Result<Name, NameFault>, held: u64) -> Result<(), Fail> {
    let refusal = Refusal::from(answer.err().ok_or("the text was entered")?);
    assert_eq!(rt; refusal.code.number(), 4);
    assert!(rt; matches!(refusal.layer, Layer::Names));
    assert_eq!(rt; refusal.place, held);
    Ok(())
}

#[test]
fn a_table_begins_with_six_names(rt: HostRuntime) -> Result<(), Fail> {
    let table = NameTable::new(rt.alloc())?;
    assert_eq!(rt; table.len(), 6);
    let texts: [&[u8]; 6] = [
        b"",
        b"xml",
        b"xmlns",
        b"script",
        b"http://www.w3.org/XML/1998/namespace",
        b"http://www.w3.org/2000/xmlns/",
    ];
    for (text, number) in texts.iter().zip(0u16..) {
        assert_eq!(rt; table.find(text), Some(Name(number)));
    }
    assert!(rt; table.text(Name(6)).is_none());
    Ok(())
}

#[test]
fn the_constants_name_the_built_in_texts(rt: HostRuntime) -> Result<(), Fail> {
    let table = NameTable::new(rt.alloc())?;
    assert!(rt; table.find(b"") == Some(Name::EMPTY));
    assert!(rt; table.find(b"xml") == Some(Name::XML));
    assert!(rt; table.find(b"xmlns") == Some(Name::XMLNS));
    assert!(rt; table.find(b"script") == Some(Name::SCRIPT));
    assert!(rt; table.find(XML_URI) == Some(Name::XML_URI));
    assert!(rt; table.find(XMLNS_URI) == Some(Name::XMLNS_URI));
    Ok(())
}

#[test]
fn equal_texts_have_one_number(rt: HostRuntime) -> Result<(), Fail> {
    let mut table = NameTable::new(rt.alloc())?;
    assert_eq!(rt; table.enter(b"job").ok(), Some(Name(6)));
    assert_eq!(rt; table.enter(b"Job").ok(), Some(Name(7)));
    assert_eq!(rt; table.enter(b"job").ok(), Some(Name(6)));
    assert_eq!(rt; table.find(b"Job"), Some(Name(7)));
    assert!(rt; table.find(b"jo").is_none());
    let text = table.text(Name(7)).ok_or("no text")?;
    assert!(rt; text == b"Job".as_slice());
    Ok(())
}

#[test]
fn names_are_bytes(rt: HostRuntime) -> Result<(), Fail> {
    let mut table = NameTable::new(rt.alloc())?;
    assert_eq!(rt; table.enter(&[0xff, 0, 0x80]).ok(), Some(Name(6)));
    assert_eq!(rt; table.find(&[0xff, 0, 0x80]), Some(Name(6)));
    Ok(())
}

#[test]
fn a_prefix_is_entered_before_its_local_name(rt: HostRuntime) -> Result<(), Fail> {
    let mut table = NameTable::new(rt.alloc())?;
    let job = table.enter_name(Some(b"build"), b"job").ok();
    assert!(rt;
        job == Some(QualName {
            prefix: Some(Name(6)),
            ns: Name::EMPTY,
            local: Name(7)
        })
    );
    let file = table.enter_name(None, b"file").ok();
    assert!(rt;
        file == Some(QualName {
            prefix: None,
            ns: Name::EMPTY,
            local: Name(8)
        })
    );
    Ok(())
}

#[test]
fn a_prefix_stays_where_its_local_name_is_refused(rt: HostRuntime) -> Result<(), Fail> {
    let mut table = NameTable::new(rt.alloc())?;
    fill(&rt, &mut table, 505);
    assert!(rt; table.enter_name(Some(b"build"), b"job").is_err());
    assert_eq!(rt; table.find(b"build"), Some(Name(511)));
    assert!(rt; table.find(b"job").is_none());
    Ok(())
}

#[test]
fn the_512th_name_passes_and_the_next_is_refused(rt: HostRuntime) -> Result<(), Fail> {
    let mut table = NameTable::new(rt.alloc())?;
    fill(&rt, &mut table, 506);
    assert_eq!(rt; table.len(), 512);
    check_refused(&rt, table.enter(b"one more"), 512)?;
    assert_eq!(rt; table.len(), 512);
    // a known text is never refused
    assert_eq!(rt; table.enter(b"script").ok(), Some(Name(3)));
    assert_eq!(rt; table.enter(&505u16.to_be_bytes()).ok(), Some(Name(511)));
    Ok(())
}

#[test]
fn the_16384th_byte_passes_and_the_next_is_refused(rt: HostRuntime) -> Result<(), Fail> {
    let mut table = NameTable::new(rt.alloc())?;
    check_refused(&rt, table.enter(&[7; 16306]), 6)?;
    assert_eq!(rt; table.enter(&[7; 16305]).ok(), Some(Name(6)));
    check_refused(&rt, table.enter(b"x"), 7)?;
    assert_eq!(rt; table.enter(&[7; 16305]).ok(), Some(Name(6)));
    assert_eq!(rt; table.enter(b"").ok(), Some(Name(0)));
    Ok(())
}

fn name(prefix: Option<Name>, ns: u16) -> QualName {
    QualName {
        prefix,
        ns: Name(ns),
        local: Name(9),
    }
}

// What a caller learns from `==`, at two types: a generic `==` is known to be an equivalence, and no more.
fn same_qualified(a: QualName, b: QualName) -> bool
    ensures { Decides result (a ≡ b) }
{
    a == b
}

fn same_expanded(a: ExpandedName, b: ExpandedName) -> bool
    ensures { Decides result (a ≡ b) }
{
    a == b
}

#[test]
fn an_empty_prefix_is_not_an_absent_one(rt: HostRuntime) {
    let absent = name(None, 4);
    let empty = name(Some(Name::EMPTY), 4);
    assert!(rt; !same_qualified(absent, empty));
    assert!(rt; same_expanded(absent.expanded(), empty.expanded()));
    assert!(rt; !same_expanded(absent.expanded(), name(None, 5).expanded()));
}

#[test]
fn a_span_lies_in_a_text_up_to_its_end(rt: HostRuntime) {
    let text = b"abc";
    assert!(rt; Span { start: 3, len: 0 }.lies_in(text));
    assert!(rt; Span { start: 1, len: 2 }.lies_in(text));
    assert!(rt; !Span { start: 4, len: 0 }.lies_in(text));
    assert!(rt; !Span { start: 2, len: 2 }.lies_in(text));
    assert!(rt;
        !Span {
            start: 1,
            len: usize::MAX,
        }
        .lies_in(text)
    );
    assert!(rt;
        !Span {
            start: usize::MAX,
            len: 1,
        }
        .lies_in(text)
    );
}

#[test]
fn refusals_have_numbers(rt: HostRuntime) {
    assert_eq!(rt; RefusalCode::WrongWord.number(), 1);
    assert_eq!(rt; RefusalCode::NamesFull.number(), 4);
    assert_eq!(rt; RefusalCode::TooManyOpen.number(), 8);
    assert_eq!(rt; RefusalCode::TooManyBindings.number(), 9);
    assert_eq!(rt; RefusalCode::OutputFull.number(), 14);
}

#[test]
fn error_codes_leave_out_five(rt: HostRuntime) {
    assert_eq!(rt; ErrorCode::TokenizerError.number(), 0);
    assert_eq!(rt; ErrorCode::DeclaredTwice.number(), 4);
    assert_eq!(rt; ErrorCode::UnboundPrefix.number(), 6);
    assert_eq!(rt; ErrorCode::DuplicateAttribute.number(), 12);
}
