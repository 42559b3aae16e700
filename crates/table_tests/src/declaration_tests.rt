// Declarations: which attributes they are, and each line of the chain by which one is weighed.
use names::{ErrorCode, Name, QualName, XML_URI, XMLNS_URI};
use scopes::{Binding, Declares, Effect, declared_by, weigh};

const A: Name = Name(6);

fn attribute(prefix: Option<Name>, local: Name) -> QualName {
    QualName {
        prefix,
        ns: Name::EMPTY,
        local,
    }
}

// What the declaration does, or the number of its error.
fn weighed(tag: &[Binding], prefix: Option<Name>, value: &[u8]) -> Result<Effect, u8> {
    weigh(tag, prefix, value).map_err(ErrorCode::number)
}

#[test]
fn declarations_are_told_by_their_names(rt: HostRuntime) {
    assert!(rt;
        matches!(
            declared_by(attribute(Some(Name::XMLNS), A)),
            Some(Declares(Some(Name(6))))
        )
    );
    assert!(rt;
        matches!(
            declared_by(attribute(None, Name::XMLNS)),
            Some(Declares(None))
        )
    );
    // `xmlns:` declares the present empty prefix
    assert!(rt;
        matches!(
            declared_by(attribute(Some(Name::XMLNS), Name::EMPTY)),
            Some(Declares(Some(Name(0))))
        )
    );
    // a present empty prefix with the local name `xmlns` declares nothing, nor does `a:xmlns`
    assert!(rt; declared_by(attribute(Some(Name::EMPTY), Name::XMLNS)).is_none());
    assert!(rt; declared_by(attribute(Some(A), Name::XMLNS)).is_none());
    assert!(rt; declared_by(attribute(None, A)).is_none());
}

#[test]
fn the_first_line_that_fits_decides(rt: HostRuntime) {
    let none: [Binding; 0] = [];
    // the xmlns namespace comes before all else
    assert_eq!(rt; weighed(&none, None, XMLNS_URI), Err(1));
    assert_eq!(rt; weighed(&none, Some(Name::XML), XMLNS_URI), Err(1));
    assert_eq!(rt; weighed(&none, Some(Name::XMLNS), XMLNS_URI), Err(1));
    assert_eq!(rt;
        weighed(&none, Some(Name::XML), XML_URI),
        Ok(Effect::Nothing)
    );
    assert_eq!(rt; weighed(&none, Some(Name::XML), b"urn:u"), Err(2));
    assert_eq!(rt; weighed(&none, Some(Name::XML), b""), Err(2));
    assert_eq!(rt; weighed(&none, Some(Name::XMLNS), XML_URI), Err(3));
    assert_eq!(rt; weighed(&none, Some(Name::XMLNS), b""), Err(3));
    assert_eq!(rt; weighed(&none, None, XML_URI), Err(2));
    assert_eq!(rt; weighed(&none, Some(A), XML_URI), Err(2));
}

#[test]
fn a_prefix_is_declared_once_on_a_tag(rt: HostRuntime) {
    let tag = [Binding {
        prefix: Some(A),
        ns: None,
    }];
    assert_eq!(rt; weighed(&tag, Some(A), b"urn:u"), Err(4));
    assert_eq!(rt; weighed(&tag, Some(A), b""), Err(4));
    // its value is looked at first
    assert_eq!(rt; weighed(&tag, Some(A), XML_URI), Err(2));
    assert_eq!(rt; weighed(&tag, None, b"urn:u"), Ok(Effect::Binds));
    assert_eq!(rt;
        weighed(&tag, Some(Name::EMPTY), b""),
        Ok(Effect::Undeclares)
    );
}

#[test]
fn only_a_rejected_declaration_is_an_error(rt: HostRuntime) {
    let declared: [Binding; 0] = [];
    let tag = [Binding {
        prefix: Some(A),
        ns: None,
    }];
    assert!(rt; weigh(&declared, None, b"urn:u").err().is_none());
    assert!(rt; weigh(&declared, None, b"").err().is_none());
    assert!(rt; weigh(&declared, Some(Name::XML), XML_URI).err().is_none());
    assert!(rt; weigh(&tag, Some(A), b"urn:u").err() == Some(ErrorCode::DeclaredTwice));
}
