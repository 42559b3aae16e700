// Tests of the limits: what just fits, and what is refused.
use crate::checks::check_part;
use std::alloc::{AllocError, Global};
use std::test::Fail;

#[test]
fn open_elements(rt: HostRuntime) -> Result<(), Fail> {
    let heap = rt.alloc();
    let mut listing = "start a\n".repeat(heap, 128)?;
    listing.push_str("empty b\nend a\nstart b\n")?;
    let fits = "bound: 131, elements: 130\n";
    check_part(&rt, listing.as_str(), fits, true)?;
    let listing = "start a\n".repeat(heap, 129)?;
    let refused = "line 129: start a
  refused, number 8: there would be more than 128 open elements; reading ends here
summary
  tags read: 129, bound: 128, elements: 128
";
    check_part(&rt, listing.as_str(), refused, false)
}

fn declaring(heap: Global, tag: &str, count: usize) -> Result<String, AllocError> {
    let mut listing = String::from_str(heap, tag)?;
    for i in 0..count {
        write!(listing, " xmlns:p{i}=\"u\"")?;
    }
    Ok(listing)
}

// With the three built-in bindings and one on the root, a tag of any kind has room for 252.
#[test]
fn bindings(rt: HostRuntime) -> Result<(), Fail> {
    let heap = rt.alloc();
    let refused = "
  refused, number 9: there would be more than 256 bindings at once; reading ends here
summary
  tags read: 2, bound: 1, elements: 1
";
    for kind in ["start", "empty", "end"] {
        let tag = format!(in heap; "start r xmlns:=\"u\"\n{kind} a")?;
        let listing = declaring(heap, tag.as_str(), 252)?;
        check_part(&rt, listing.as_str(), "tags read: 2, bound: 2", true)?;
        let listing = declaring(heap, tag.as_str(), 253)?;
        check_part(&rt, listing.as_str(), refused, false)?;
    }
    Ok(())
}

fn many_names(heap: Global, count: usize) -> Result<String, AllocError> {
    let mut listing = String::from_str(heap, "start r\n")?;
    for i in 0..count {
        writeln!(listing, "empty a{i}")?;
    }
    Ok(listing)
}

// The table has room for 506 names besides the built-in ones.
#[test]
fn different_names(rt: HostRuntime) -> Result<(), Fail> {
    let mut listing = many_names(rt.alloc(), 505)?;
    check_part(&rt, listing.as_str(), "tags read: 506, bound: 506", true)?;
    listing.push_str("empty a0 xmlns:r=\"b\"\n")?;
    let refused = "line 507: empty a0
  refused, number 4: there would be more than 512 different names; reading ends here
summary
  tags read: 507, bound: 506, elements: 506
";
    check_part(&rt, listing.as_str(), refused, false)
}

// Of the 16384 bytes the built-in names have 79.
#[test]
fn bytes_of_names(rt: HostRuntime) -> Result<(), Fail> {
    let heap = rt.alloc();
    let name = "a".repeat(heap, 16305)?;
    let mut listing = format!(in heap; "empty {name}")?;
    check_part(&rt, listing.as_str(), "tags read: 1, bound: 1", true)?;
    listing.push('a')?;
    let refused = "
  refused, number 4: the different names would have more than 16384 bytes together; reading ends here
summary
  tags read: 1, bound: 0, elements: 0
";
    check_part(&rt, listing.as_str(), refused, false)
}
