// Renders a listing, and compares what is printed.
use reports::{Report, scopes_report};
use std::process::Abort;
use std::test::Fail;

// What stands before the summary, and the summary without its first line.
fn parts(report: &Report) -> Result<(&str, &str), Fail> {
    let parts = report.text.as_str().split_once("summary\n");
    Ok(parts.ok_or("no summary")?)
}

// The report of a listing that is read to its end.
fn read(rt: &(impl AllocGlobal + Abort), listing: &[u8]) -> Result<Report, Fail> {
    let report = scopes_report(rt.alloc(), listing)?;
    assert!(rt; report.complete);
    Ok(report)
}

// The lines before the summary.
pub(crate) fn check_tags(
    rt: &(impl AllocGlobal + Abort),
    listing: &[u8],
    wanted: &str,
) -> Result<(), Fail> {
    let report = read(rt, listing)?;
    let (tags, _) = parts(&report)?;
    assert_eq!(rt; tags, wanted);
    Ok(())
}

// The summary without its first line.
pub(crate) fn check_summary(
    rt: &(impl AllocGlobal + Abort),
    listing: &[u8],
    wanted: &str,
) -> Result<(), Fail> {
    let report = read(rt, listing)?;
    let (_, summary) = parts(&report)?;
    assert_eq!(rt; summary, wanted);
    Ok(())
}

// The whole of a report that stops before the end of the listing.
pub(crate) fn check_stopped(
    rt: &(impl AllocGlobal + Abort),
    listing: &[u8],
    wanted: &str,
) -> Result<(), Fail> {
    let report = scopes_report(rt.alloc(), listing)?;
    assert_eq!(rt; report.text.as_str(), wanted);
    assert!(rt; !report.complete);
    Ok(())
}

// A report too long to be written out has this part. There is a text whether the listing was read to its end or not.
pub(crate) fn check_part(
    rt: &(impl AllocGlobal + Abort),
    listing: &str,
    part: &str,
    complete: bool,
) -> Result<(), Fail> {
    let report = scopes_report(rt.alloc(), listing.as_bytes())?;
    assert!(rt; report.text.as_str().contains(part), "{part}");
    assert_eq!(rt; report.complete, complete);
    Ok(())
}
