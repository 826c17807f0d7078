ghost use Rattle.std.specs.Prelude.{◌≤◌, length};

mod filling;

/// Rows that fill up from the front, over a lent slice.
#[derive(Drop)]
pub struct Table<'a, T> {
    rows: &'a mut [T],
    // Beside the rows, and no Vec: they are the caller's, and no heap is used.
    filled: usize,
    ghost fits: { filled ≤ length rows.now },
}

/// No row is free.
#[derive(Clone, Copy, PartialEq, Eq, Debug)]
pub struct Full;
