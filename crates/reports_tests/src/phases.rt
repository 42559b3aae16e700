// Tests of where tags stand: before, inside and after the root element, and what end tags close.
use crate::checks::{check_stopped, check_summary, check_tags};
use std::test::Fail;

#[test]
fn malformed_line(rt: HostRuntime) -> Result<(), Fail> {
    check_stopped(
        &rt,
        b"start a\n\nstart b x=1\nend a\n",
        "line 1: start a
  element a: no namespace (no default namespace is declared)
line 3: malformed, expected name=\"value\"; reading ends here
summary
  tags read: 1, bound: 1, elements: 1
  names in no namespace:
    line 1: element a (no default namespace is declared)
  errors:
    none
  the listing was not read to its end
",
    )
}

#[test]
fn nothing_to_read(rt: HostRuntime) -> Result<(), Fail> {
    check_summary(
        &rt,
        b"# nothing\n",
        "  tags read: 0, bound: 0, elements: 0
  names in no namespace:
    none
  errors:
    none
",
    )
}

#[test]
fn end_tag_closes_several(rt: HostRuntime) -> Result<(), Fail> {
    check_tags(
        &rt,
        b"start a xmlns=\"u\"\nstart b\nstart a\nstart c\nend b\nshort\n",
        "line 1: start a
  xmlns=\"u\": binds the default namespace
  element a: \"u\" (the default namespace, declared on line 1)
line 2: start b
  element b: \"u\" (the default namespace, declared on line 1)
line 3: start a
  element a: \"u\" (the default namespace, declared on line 1)
line 4: start c
  element c: \"u\" (the default namespace, declared on line 1)
line 5: end b
  end tag b: \"u\" (the default namespace, declared on line 1)
  closes b (line 2) and 2 elements inside it
line 6: short
  closes a (line 1)
",
    )
}

// The innermost element of the name is closed, whatever its prefix.
#[test]
fn end_tag_closes_by_meaning(rt: HostRuntime) -> Result<(), Fail> {
    check_tags(
        &rt,
        b"start a xmlns=\"u\"\nstart c:a xmlns:c=\"u\"\nstart b\nend a\n",
        "line 1: start a
  xmlns=\"u\": binds the default namespace
  element a: \"u\" (the default namespace, declared on line 1)
line 2: start c:a
  xmlns:c=\"u\": binds c
  element c:a: \"u\" (c, declared on line 2)
line 3: start b
  element b: \"u\" (the default namespace, declared on line 1)
line 4: end a
  end tag a: \"u\" (the default namespace, declared on line 1)
  closes c:a (line 2) and 1 element inside it
",
    )
}

// A declaration on an end tag holds for that tag, and may keep it from its element.
#[test]
fn end_tag_closes_nothing(rt: HostRuntime) -> Result<(), Fail> {
    check_tags(
        &rt,
        b"start a\nend a xmlns=\"u\"\nend a\n",
        "line 1: start a
  element a: no namespace (no default namespace is declared)
line 2: end a
  xmlns=\"u\": binds the default namespace
  end tag a: \"u\" (the default namespace, declared on line 2)
  closes nothing: no open element has this name
line 3: end a
  end tag a: no namespace (no default namespace is declared)
  closes a (line 1)
",
    )
}

#[test]
fn before_and_after_the_root(rt: HostRuntime) -> Result<(), Fail> {
    let listing = b"end a\nshort\nnull\nempty d:a\nstart b xmlns:d=\"u\"\nend b\nshort\n";
    check_tags(
        &rt,
        listing,
        "line 1: end a
  not bound: the root element has not begun
line 2: short
  closes nothing: the root element has not begun
line 4: empty d:a
  element d:a: no namespace; error 6: the prefix d is not bound
line 5: start b
  not bound: the document has ended on line 4
line 6: end b
  not bound: the document has ended on line 4
line 7: short
  closes nothing: the document has ended on line 4
",
    )?;
    check_summary(
        &rt,
        listing,
        "  tags read: 4, bound: 1, elements: 1
  names in no namespace:
    line 4: element d:a (the prefix d is not bound)
  errors:
    6, prefix not bound: 1
",
    )
}

// The end of the file ends the document anywhere, and a null character inside the root element.
#[test]
fn document_ends(rt: HostRuntime) -> Result<(), Fail> {
    let after_root = "line 1: start a
  element a: no namespace (no default namespace is declared)
line 4: empty b
  not bound: the document has ended on line 2
";
    check_tags(&rt, b"start a\neof\neof\nempty b\n", after_root)?;
    check_tags(&rt, b"start a\nnull\neof\nempty b\n", after_root)?;
    check_tags(
        &rt,
        b"eof\nempty b\n",
        "line 2: empty b
  not bound: the document has ended on line 1
",
    )
}
