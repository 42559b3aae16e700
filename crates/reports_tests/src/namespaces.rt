// Tests of the namespaces of names, and of declarations.
use crate::checks::{check_summary, check_tags};
use std::test::Fail;

#[test]
fn unbound_and_undeclared(rt: HostRuntime) -> Result<(), Fail> {
    let listing =
        b"start a xmlns:b=\"u\"\nstart b:a xmlns:b=\"\" c:x=\"1\"\nend b:a xmlns:b=\"u\"\n";
    check_tags(
        &rt,
        listing,
        "line 1: start a
  xmlns:b=\"u\": binds b
  element a: no namespace (no default namespace is declared)
line 2: start b:a
  xmlns:b=\"\": undeclares b
  attribute c:x: no namespace; error 6: the prefix c is not bound
  element b:a: no namespace; error 6: the prefix b is undeclared on line 2
line 3: end b:a
  xmlns:b=\"u\": binds b
  end tag b:a: \"u\" (b, declared on line 3)
  closes nothing: no open element has this name
",
    )?;
    check_summary(
        &rt,
        listing,
        "  tags read: 3, bound: 3, elements: 2
  names in no namespace:
    line 1: element a (no default namespace is declared)
    line 2: attribute c:x (the prefix c is not bound)
    line 2: element b:a (the prefix b is undeclared on line 2)
  errors:
    6, prefix not bound: 2
",
    )
}

#[test]
fn redeclared_default(rt: HostRuntime) -> Result<(), Fail> {
    check_tags(
        &rt,
        b"start a xmlns=\"u\"\nempty b xmlns=\"v\"\nstart c xmlns=\"\"\nshort\nempty d\n",
        "line 1: start a
  xmlns=\"u\": binds the default namespace
  element a: \"u\" (the default namespace, declared on line 1)
line 2: empty b
  xmlns=\"v\": binds the default namespace
  element b: \"v\" (the default namespace, declared on line 2)
line 3: start c
  xmlns=\"\": undeclares the default namespace
  element c: no namespace (the default namespace is undeclared on line 3)
line 4: short
  closes c (line 3)
line 5: empty d
  element d: \"u\" (the default namespace, declared on line 1)
",
    )
}

#[test]
fn rejected_values(rt: HostRuntime) -> Result<(), Fail> {
    check_tags(
        &rt,
        b"start a xmlns:b=\"http://www.w3.org/2000/xmlns/\" xmlns=\"http://www.w3.org/XML/1998/namespace\"\n",
        "line 1: start a
  xmlns:b=\"http://www.w3.org/2000/xmlns/\": error 1: nothing can be bound to the namespace of xmlns
  xmlns=\"http://www.w3.org/XML/1998/namespace\": error 2: the prefix xml cannot be bound to another namespace, nor its namespace to another prefix
  element a: no namespace (no default namespace is declared)
",
    )
}

// A rejected declaration is as if it were not there, and the first accepted one stays.
#[test]
fn rejected_prefixes(rt: HostRuntime) -> Result<(), Fail> {
    let listing =
        b"empty b:a xmlns:xml=\"u\" xmlns:xmlns=\"u\" xmlns:b=\"u\" xmlns:b=\"v\" xmlns:b=\"\"\n";
    check_tags(
        &rt,
        listing,
        "line 1: empty b:a
  xmlns:xml=\"u\": error 2: the prefix xml cannot be bound to another namespace, nor its namespace to another prefix
  xmlns:xmlns=\"u\": error 3: the prefix xmlns cannot be declared
  xmlns:b=\"u\": binds b
  xmlns:b=\"v\": error 4: declared before on the same tag
  xmlns:b=\"\": error 4: declared before on the same tag
  element b:a: \"u\" (b, declared on line 1)
",
    )?;
    check_summary(
        &rt,
        listing,
        "  tags read: 1, bound: 1, elements: 1
  names in no namespace:
    none
  errors:
    2, the prefix xml cannot be bound to another namespace, nor its namespace to another prefix: 1
    3, the prefix xmlns cannot be declared: 1
    4, declared before on the same tag: 2
",
    )
}

#[test]
fn built_in_prefixes(rt: HostRuntime) -> Result<(), Fail> {
    check_tags(
        &rt,
        b"empty xmlns:a xmlns:xml=\"http://www.w3.org/XML/1998/namespace\" xml:lang=\"en\"\n",
        "line 1: empty xmlns:a
  xmlns:xml=\"http://www.w3.org/XML/1998/namespace\": no effect, xml is built in
  attribute xml:lang: \"http://www.w3.org/XML/1998/namespace\" (xml, built in)
  element xmlns:a: \"http://www.w3.org/2000/xmlns/\" (xmlns, built in)
",
    )
}

// A prefix that is there and has no byte is not the default namespace.
#[test]
fn empty_prefix(rt: HostRuntime) -> Result<(), Fail> {
    check_tags(
        &rt,
        b"start x :y=\"1\" xmlns:=\"u\"\nempty :x\nempty :x xmlns:=\"\"\nempty \\e\n",
        "line 1: start x
  xmlns:=\"u\": binds the empty prefix
  attribute :y: \"u\" (the empty prefix, declared on line 1)
  element x: no namespace (no default namespace is declared)
line 2: empty :x
  element :x: \"u\" (the empty prefix, declared on line 1)
line 3: empty :x
  xmlns:=\"\": undeclares the empty prefix
  element :x: no namespace; error 6: the empty prefix is undeclared on line 3
line 4: empty \\e
  element \\e: no namespace (no default namespace is declared)
",
    )
}

#[test]
fn texts_are_escaped(rt: HostRuntime) -> Result<(), Fail> {
    check_tags(
        &rt,
        b"empty \\n:\\xff xmlns:\\n=\"\\\"\\t\"\n",
        "line 1: empty \\n:\\xff
  xmlns:\\n=\"\\\"\\t\": binds \\n
  element \\n:\\xff: \"\\\"\\t\" (\\n, declared on line 1)
",
    )
}
