// Takes a text apart into its lines.
ghost use Rattle.std.specs.Prelude.{◌≡◌, ◌<◌, length};
ghost use Rattle.std.specs.Iterator.{at_most};
ghost use Rattle.std.specs.Option.{option_map};
ghost use Rattle.listing.specs.Ends.{EndsAt, without_return, FirstLine, GivesLine};
ghost use Rattle.listing.specs.Lines.{text_left};

// The index of the first line feed, or the length of the text where there is none.
fn line_end(text: &[u8]) -> usize
    ensures { EndsAt text.now result }
{
    text.iter().position(|b| *b == b'\n').unwrap_or(text.len())
}

fn without_return(line: &[u8]) -> &[u8]
    ensures { result.now ≡ without_return line.now }
{
    line.strip_suffix(b"\r").unwrap_or(line)
}

// The first line of the text, and what follows it. The line comes without the line feed that ends it and without a
// carriage return at its end. What follows is shorter than the text unless that is empty, so a loop over it ends.
pub fn next_line(text: &[u8]) -> (&[u8], &[u8])
    ensures splits { FirstLine text.now result.0.now result.1.now }
    ensures shorter { 0 < length text.now → length result.1.now < length text.now }
{
    let end = line_end(text);
    let rest = text.get(end + 1..).unwrap_or(&[]);
    (without_return(&text[..end]), rest)
}

// The lines of a text in their order, each as `next_line` gives it. A line feed at the end of the text begins no
// further line.
#[derive(Clone, Copy)]
pub struct Lines<'a> {
    rest: &'a [u8],
}

impl<'a> Iterator for Lines<'a> {
    type Item = &'a [u8];

    ghost next_gives = { λ s r t. GivesLine (text_left s) (option_map (λ x. x.now) r) (text_left t) };

    ghost remaining = { λ s. at_most (length (text_left s)) };

    fn next(&mut self) -> Option<&'a [u8]> {
        if self.rest.is_empty() {
            return None;
        }
        let (line, rest) = next_line(self.rest);
        self.rest = rest;
        Some(line)
    }
}

pub fn lines_of(text: &[u8]) -> Lines<'_>
    ensures { text_left result ≡ text.now }
{
    Lines { rest: text }
}
