// Rows of one kind, kept in an array of fixed length.
ghost use Rattle.std.specs.Prelude.{◌≡◌, ◌≤◌, length};

// An array of rows, of which the first so many count. It stays an array with a
// count, since a book holds within itself what it holds, in fixed memory.
#[derive(Drop)]
pub(crate) struct Table<T, const N: usize> {
    pub(crate) rows: [T; N],
    pub(crate) count: usize,
    ghost whole: { length rows ≡ N },
    ghost few: { count ≤ N },
}
