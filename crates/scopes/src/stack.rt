// A list of at most N items that is a plain value: it is copied whole, and changed by making another.
ghost use Rattle.std.specs.Prelude.{◌≡◌, ◌≤◌, take, nat_lt};
ghost use Rattle.scopes.specs.Pushing.{pushed};

// The first `len` of the items count. A vector would take memory, and an `ArrayVec` is not copied. The bounds on `len`
// are ghost fields of the tables: a type with a parameter T derives no `Clone` beside a ghost field.
#[derive(Clone, Copy)]
pub(crate) struct Stack<T, const N: usize> {
    pub(crate) items: [T; N],
    pub(crate) len: usize,
}

impl<T: Copy, const N: usize> Stack<T, N> {
    pub(crate) fn as_slice(&self) -> &[T]
        requires { self.now.len ≤ N }
        ensures { result.now ≡ take self.now.len self.now.items }
    {
        &self.items[..self.len]
    }

    // Whether there is room for one item more.
    fn has_room(&self) -> bool
        ensures { result ≡ nat_lt self.now.len N }
    {
        self.len < N
    }

    // The same with one item more, if there is room for it.
    pub(crate) fn push(self, item: T) -> Option<Stack<T, N>>
        ensures { result ≡ pushed N self item }
    {
        if !self.has_room() {
            return None;
        }
        let mut stack = self;
        stack.items[self.len] = item;
        stack.len += 1;
        Some(stack)
    }
}
