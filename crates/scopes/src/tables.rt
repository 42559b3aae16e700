// The tables of bindings: the builder's, above what is built in, and the serializer's.
ghost use Rattle.std.specs.Prelude.{◌≡◌, ◌+◌, ◌≤◌, true, [], length, take, position};
ghost use Rattle.scopes.specs.Prefixes.{same, built_ins, keeps_free};
ghost use Rattle.scopes.specs.Rows.{in_row, nearest, size, opened, refuses, declared, closed};
ghost use Rattle.scopes.specs.Stacks.{stacked, climbs};

use crate::bindings::{Binding, Found};
use crate::faults::ScopeFault;
use crate::prefixes::is_reserved;
use crate::stack::Stack;
use names::Name;

mod scope_table;
mod serializer_scopes;

// How many bindings a table takes, and how many rows.
pub const MOST_BINDINGS: usize = 256;

const MOST_ROWS: usize = 128;

// A row of bindings for each open element. The first BUILT_IN entries belong to no row. Above them the rows stand one
// after another, each known by where it starts, and the innermost last. Where something is built in, no row binds `xml`
// or `xmlns`: so every such table resolves these two to their own namespaces. A table is copied and forgets what stands
// past its end, so it cannot have a model.
#[derive(Clone, Copy)]
pub struct Scopes<const BUILT_IN: usize> {
    entries: Stack<Binding, MOST_BINDINGS>,
    starts: Stack<usize, MOST_ROWS>,
    ghost places: { length entries.items ≡ 256 },
    ghost levels: { length starts.items ≡ 128 },
    ghost few: { entries.len ≤ 256 },
    ghost shallow: { starts.len ≤ 128 },
    ghost climbing: { climbs BUILT_IN starts.items starts.len entries.len ≡ true },
    ghost below: { take BUILT_IN entries.items ≡ take BUILT_IN built_ins },
    ghost above: { keeps_free BUILT_IN (stacked starts.items entries.items starts.len entries.len) ≡ true },
}

// The builder's table: the bindings of the open elements, above the three that are built in.
pub type ScopeTable = Scopes<3>;

// The serializer's table: the bindings that were written on the elements that are still open. Nothing is built in.
pub type SerializerScopes = Scopes<0>;

// The place of the first binding of `prefix` in a row.
fn place_in(bindings: &[Binding], prefix: Option<Name>) -> Option<usize>
    ensures { result ≡ position (λ binding. same binding.prefix prefix) bindings.now }
{
    bindings.iter().position(|binding| binding.prefix == prefix)
}

// The first binding of `prefix` in a row. `row` is the number that the answer gives the row.
#[tactic(auto, using(crate::proofs::Searching::row_found_at))]
fn find_in(row: usize, bindings: &[Binding], prefix: Option<Name>) -> Option<Found>
    ensures { result ≡ in_row row 0 bindings.now prefix }
{
    let place = place_in(bindings, prefix)?;
    Some(Found {
        row,
        place,
        ns: bindings[place].ns,
    })
}

impl<const BUILT_IN: usize> Scopes<BUILT_IN> {
    ghost use Rattle.scopes.specs.Tables.{rows_of, rows_by};

    // No element is open. The first BUILT_IN of the items are what is built in.
    fn above(items: [Binding; MOST_BINDINGS]) -> Self
        requires few { BUILT_IN ≤ 256 }
        requires below { take BUILT_IN items ≡ take BUILT_IN built_ins }
        ensures { rows_of result ≡ [] }
    {
        Scopes {
            entries: Stack {
                items,
                len: BUILT_IN,
            },
            starts: Stack {
                items: [0; MOST_ROWS],
                len: 0,
            },
        }
    }

    // How many elements are open.
    #[tactic(auto, using(crate::proofs::Stacking::length_stacked))]
    pub fn row_count(&self) -> usize
        ensures { result ≡ length (rows_of self.now) }
    {
        self.starts.len
    }

    // How many bindings there are, the built-in ones counted.
    #[tactic(auto, using(crate::proofs::Stacking::size_stacked))]
    pub fn binding_count(&self) -> usize
        ensures { result ≡ BUILT_IN + size (rows_of self.now) }
    {
        self.entries.len
    }

    // Opens a row, for a new innermost element.
    pub fn open_row(self) -> Result<Self, ScopeFault>
        ensures { rows_by result ≡ opened (rows_of self.entry) }
    {
        let starts = self
            .starts
            .push(self.entries.len)
            .ok_or(ScopeFault::TooManyRows)?;
        Ok(Scopes {
            entries: self.entries,
            starts,
        })
    }

    // Whether a prefix is bound for good, so that no row takes a binding of it.
    fn refuses(prefix: Option<Name>) -> bool
        ensures { result ≡ refuses BUILT_IN prefix }
    {
        BUILT_IN > 0 && is_reserved(prefix)
    }

    // Adds a binding to the innermost row. Where `xml` and `xmlns` are bound for good, they are refused.
    pub fn add(self, binding: Binding) -> Result<Self, ScopeFault>
        ensures { rows_by result ≡ declared BUILT_IN (rows_of self.entry) binding }
    {
        if Self::refuses(binding.prefix) {
            return Err(ScopeFault::Reserved);
        }
        if self.starts.len == 0 {
            return Err(ScopeFault::NoOpenRow);
        }
        let entries = self
            .entries
            .push(binding)
            .ok_or(ScopeFault::TooManyBindings)?;
        Ok(Scopes {
            entries,
            starts: self.starts,
        })
    }

    // Closes the innermost row, with its element.
    pub fn close_row(self) -> Result<Self, ScopeFault>
        ensures { rows_by result ≡ closed (rows_of self.entry) }
    {
        let row = self.starts.len.checked_sub(1).ok_or(ScopeFault::NoOpenRow)?;
        let mut table = self;
        table.starts.len = row;
        table.entries.len = self.starts.items[row];
        Ok(table)
    }

    // The bindings below the rows.
    #[tactic(auto, using(crate::proofs::Holding::bottom))]
    fn built_in(&self) -> &[Binding]
        ensures { result.now ≡ take BUILT_IN self.now.entries.items }
    {
        &self.entries.items[..BUILT_IN]
    }

    // The binding of `prefix` in the innermost row that has one.
    fn nearest(&self, prefix: Option<Name>) -> Option<Found>
        ensures { result ≡ nearest (rows_of self.now) prefix }
    {
        let mut end = self.entries.len;
        for (row, &start) in self.starts.as_slice().iter().enumerate().rev() {
            if let Some(found) = find_in(row, &self.entries.items[start..end], prefix) {
                return Some(found);
            }
            end = start;
        }
        None
    }
}
