// The report of the subcommand `scopes`: which namespace each name of a document has, and why.
use crate::reading::Reading;
use crate::stop::Stop;
use std::alloc::{AllocError, Global};

// `complete` is false where a line was malformed or a tag was refused, so that the rest was not read. There is a text
// either way, so a Result would not say it more plainly.
#[derive(Drop)]
pub struct Report {
    pub text: String,
    pub complete: bool,
}

pub fn scopes_report(heap: Global, listing: &[u8]) -> Result<Report, AllocError> {
    let mut reading = Reading::new(heap)?;
    match reading.read_listing(listing) {
        Ok(()) => Ok(Report {
            text: reading.finish()?,
            complete: true,
        }),
        Err(Stop::Memory(e)) => Err(e),
        Err(stop) => {
            reading.print_stop(stop)?;
            let mut text = reading.finish()?;
            text.push_str("  the listing was not read to its end\n")?;
            Ok(Report {
                text,
                complete: false,
            })
        }
    }
}
