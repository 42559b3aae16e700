// The builder's and the serializer's tables: their limits, and look-ups through nested elements.
use names::{Name, RefusalCode};
use scopes::{Binding, Found, Lookup, ScopeFault, ScopeTable, Scopes, SerializerScopes};
use std::ops::Range;
use std::test::Fail;

const A: Name = Name(6);

const B: Name = Name(7);

const U: Name = Name(20);

const V: Name = Name(21);

fn bind(prefix: Option<Name>, ns: Option<Name>) -> Binding {
    Binding { prefix, ns }
}

// The table with one element more, which has this binding.
fn inside(table: ScopeTable, binding: Binding) -> Result<ScopeTable, Fail> {
    Ok(table.open_row()?.add(binding)?)
}

// The table with so many elements more, which have no binding.
fn opened<const BUILT_IN: usize>(
    table: Scopes<BUILT_IN>,
    count: usize,
) -> Result<Scopes<BUILT_IN>, Fail> {
    let mut table = table;
    for _ in 0..count {
        table = table.open_row()?;
    }
    Ok(table)
}

// The table with these names bound in its innermost row, all to one namespace.
fn bound<const BUILT_IN: usize>(
    table: Scopes<BUILT_IN>,
    names: Range<u16>,
) -> Result<Scopes<BUILT_IN>, Fail> {
    let mut table = table;
    for name in names {
        table = table.add(bind(Some(Name(name)), Some(U)))?;
    }
    Ok(table)
}

fn refusal_number(fault: ScopeFault) -> Option<u8> {
    fault.code().map(RefusalCode::number)
}

fn declared(row: usize, place: usize, ns: Option<Name>) -> Lookup {
    Lookup::Declared(Found { row, place, ns })
}

#[test]
fn three_bindings_are_built_in(rt: HostRuntime) {
    let table = ScopeTable::new();
    assert_eq!(rt; table.row_count(), 0);
    assert_eq!(rt; table.binding_count(), 3);
    assert_eq!(rt; table.find_uri(&[], None), Lookup::BuiltIn(Name(0)));
    assert_eq!(rt;
        table.find_uri(&[], Some(Name::XML)),
        Lookup::BuiltIn(Name(4))
    );
    assert_eq!(rt;
        table.find_uri(&[], Some(Name::XMLNS)),
        Lookup::BuiltIn(Name(5))
    );
    assert_eq!(rt; table.find_uri(&[], Some(A)), Lookup::Unbound);
    assert_eq!(rt; table.find_uri(&[], Some(Name::EMPTY)), Lookup::Unbound);
}

#[test]
fn the_nearest_declaration_answers(rt: HostRuntime) -> Result<(), Fail> {
    let outer = inside(ScopeTable::new(), bind(None, Some(U)))?.add(bind(Some(A), Some(U)))?;
    let inner = inside(outer, bind(Some(A), Some(V)))?;
    assert_eq!(rt; inner.find_uri(&[], Some(A)), declared(1, 0, Some(V)));
    assert_eq!(rt; inner.find_uri(&[], None), declared(0, 0, Some(U)));
    assert_eq!(rt; outer.find_uri(&[], Some(A)), declared(0, 1, Some(U)));
    // the tag's own declarations come first, in the row after the open elements
    let tag = [bind(Some(B), Some(U)), bind(Some(A), None)];
    assert_eq!(rt; inner.find_uri(&tag, Some(A)), declared(2, 1, None));
    assert_eq!(rt; inner.find_uri(&tag, Some(B)), declared(2, 0, Some(U)));
    let closed = inner.close_row()?;
    assert_eq!(rt; closed.find_uri(&[], Some(A)), declared(0, 1, Some(U)));
    Ok(())
}

#[test]
fn undeclared_is_not_looked_up_further_out(rt: HostRuntime) -> Result<(), Fail> {
    let outer = inside(ScopeTable::new(), bind(None, Some(U)))?.add(bind(Some(A), Some(U)))?;
    let inner = inside(outer, bind(None, None))?.add(bind(Some(A), None))?;
    let prefixed = inner.find_uri(&[], Some(A));
    assert_eq!(rt; prefixed.namespace().0, 0);
    assert!(rt; prefixed.error(Some(A)).is_some());
    let default = inner.find_uri(&[], None);
    assert_eq!(rt; default.namespace().0, 0);
    assert!(rt; default.error(None).is_none());
    assert!(rt; inner.find_uri(&[], Some(B)).error(Some(B)).is_some());
    assert!(rt; outer.find_uri(&[], Some(A)).error(Some(A)).is_none());
    Ok(())
}

#[test]
fn no_call_binds_the_reserved_prefixes(rt: HostRuntime) -> Result<(), Fail> {
    let table = inside(ScopeTable::new(), bind(None, Some(U)))?;
    assert!(rt;
        matches!(
            table.add(bind(Some(Name::XML), Some(U))),
            Err(ScopeFault::Reserved)
        )
    );
    assert!(rt;
        matches!(
            table.add(bind(Some(Name::XMLNS), None)),
            Err(ScopeFault::Reserved)
        )
    );
    // nor does a tag that is handed in
    let tag = [
        bind(Some(Name::XML), Some(U)),
        bind(Some(Name::XMLNS), None),
    ];
    assert_eq!(rt;
        table.find_uri(&tag, Some(Name::XML)),
        Lookup::BuiltIn(Name(4))
    );
    assert_eq!(rt;
        table.find_uri(&tag, Some(Name::XMLNS)),
        Lookup::BuiltIn(Name(5))
    );
    Ok(())
}

#[test]
fn without_a_row_nothing_is_added_or_closed(rt: HostRuntime) {
    let table = ScopeTable::new();
    assert!(rt;
        matches!(
            table.add(bind(Some(A), Some(U))),
            Err(ScopeFault::NoOpenRow)
        )
    );
    assert!(rt; matches!(table.close_row(), Err(ScopeFault::NoOpenRow)));
    assert!(rt; refusal_number(ScopeFault::NoOpenRow).is_none());
}

#[test]
fn the_128th_row_passes_and_the_next_is_refused(rt: HostRuntime) -> Result<(), Fail> {
    let table = opened(ScopeTable::new(), 128)?;
    assert_eq!(rt; table.row_count(), 128);
    assert!(rt; matches!(table.open_row(), Err(ScopeFault::TooManyRows)));
    assert_eq!(rt; refusal_number(ScopeFault::TooManyRows), Some(8));
    Ok(())
}

#[test]
fn the_256th_binding_passes_and_the_next_is_refused(rt: HostRuntime) -> Result<(), Fail> {
    let table = bound(inside(ScopeTable::new(), bind(None, None))?, 6..258)?;
    assert_eq!(rt; table.binding_count(), 256);
    assert_eq!(rt;
        table.find_uri(&[], Some(Name(257))),
        declared(0, 252, Some(U))
    );
    assert!(rt;
        matches!(
            table.add(bind(Some(A), Some(U))),
            Err(ScopeFault::TooManyBindings)
        )
    );
    assert_eq!(rt; refusal_number(ScopeFault::TooManyBindings), Some(9));
    Ok(())
}

#[test]
fn the_serializer_begins_with_nothing(rt: HostRuntime) {
    let table = SerializerScopes::new();
    assert_eq!(rt; table.row_count(), 0);
    assert_eq!(rt; table.binding_count(), 0);
    assert!(rt; table.find(None).is_none());
    assert!(rt; table.find(Some(Name::XML)).is_none());
}

#[test]
fn the_serializer_takes_256_bindings_and_any_prefix(rt: HostRuntime) -> Result<(), Fail> {
    let table = bound(SerializerScopes::new().open_row()?, 0..256)?;
    assert_eq!(rt; table.binding_count(), 256);
    assert!(rt;
        matches!(
            table.add(bind(None, None)),
            Err(ScopeFault::TooManyBindings)
        )
    );
    let found = table.find(Some(Name::XML)).ok_or("not found")?;
    assert_eq!(rt; found.place, 1);
    Ok(())
}

#[test]
fn the_serializer_takes_128_rows(rt: HostRuntime) -> Result<(), Fail> {
    let table = opened(SerializerScopes::new(), 128)?;
    assert!(rt; matches!(table.open_row(), Err(ScopeFault::TooManyRows)));
    assert_eq!(rt; table.close_row()?.row_count(), 127);
    Ok(())
}
