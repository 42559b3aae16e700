// Enters the names of a tag into the name table.
ghost use Rattle.std.specs.Prelude.{◌≡◌, ◌*◌, ◌≤◌, [], length, slice_index, OnOk};
ghost use Rattle.names.specs.Table.{texts};
ghost use Rattle.tape.specs.Parts.{passed};
ghost use Rattle.tape.specs.Entering.{name_entered, attribute_entered, attributes_entered, read_attributes};

use crate::parts::Parts;
use names::{Attribute, NameFault, NameTable, QualName};

// A prefix that may be absent, and the local name behind it.
pub(crate) fn enter_name(names: &mut NameTable, parts: &mut Parts) -> Result<QualName, NameFault>
    requires { 2 ≤ length parts.old.words }
    ensures value { let p = parts.old in (texts names.new, result)
        ≡ name_entered (texts names.old) p.text p.at (slice_index p.words 0) (slice_index p.words 1) }
    ensures passed { parts.new ≡ passed (passed parts.old) }
{
    let prefix = parts.next_maybe_text();
    let local = parts.next_text();
    names.enter_name(prefix, local)
}

// One attribute: its name is entered, and of its value only the place is kept.
fn enter_attribute(names: &mut NameTable, parts: &mut Parts) -> Result<Attribute, NameFault>
    requires { 3 ≤ length parts.old.words }
    ensures value { let p = parts.old in (texts names.new, result)
        ≡ attribute_entered (texts names.old) p.text p.at (slice_index p.words 0) (slice_index p.words 1) (slice_index p.words 2) }
    ensures passed { OnOk result (parts.new ≡ passed (passed (passed parts.old))) }
{
    Ok(Attribute {
        name: enter_name(names, parts)?,
        value: parts.next_span(),
    })
}

// The attributes of all parts that are left, one for each of `records`.
pub(crate) fn enter_attributes(
    names: &mut NameTable,
    parts: &mut Parts,
    records: &mut [Attribute],
) -> Result<(), NameFault>
    requires { length parts.old.words ≡ 3 * length records.old }
    ensures { let p = parts.old in (texts names.new, read_attributes result records.new)
        ≡ attributes_entered [] (texts names.old) p.text p.at p.words }
{
    for record in records.iter_mut() {
        *record = enter_attribute(names, parts)?;
    }
    Ok(())
}
