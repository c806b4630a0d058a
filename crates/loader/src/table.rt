// A lent table, filled row by row.
ghost use Rattle.std.specs.Prelude.{◌≡◌, ◌<◌, ◌≤◌, ◌+◌, ◌*◌, length};
ghost use Rattle.std.proofs.lemmas.List.Edits.{sets};

// A lent table whose rows have N numbers, and its next row. Each clause `lent` says that it is the caller's table still, not another.
#[derive(Drop)]
pub(crate) struct Table<'a, T, const N: usize> {
    pub(crate) numbers: &'a mut [T],
    pub(crate) row: usize,
}

impl<'a, T: Copy, const N: usize> Table<'a, T, N> {
    // A table that no row is stored in yet.
    pub(crate) fn new(numbers: &'a mut [T]) -> Table<'a, T, N>
        ensures numbers { result.numbers.now ≡ numbers.old }
        ensures row { result.row ≡ 0 }
        ensures lent { result.numbers.ghost_name ≡ numbers.entry.ghost_name }
    {
        Table { numbers, row: 0 }
    }

    // Stores the next row.
    pub(crate) fn push(&mut self, numbers: [T; N])
        requires { (0 < N) × (N * (self.old.row + 1) ≤ length self.old.numbers.now) }
        ensures stored { self.new.numbers.now ≡ sets self.old.numbers.now (N * self.old.row) numbers }
        ensures row { self.new.row ≡ self.old.row + 1 }
        ensures lent { self.new.numbers.ghost_name ≡ self.old.numbers.ghost_name }
    {
        let at = N * self.row;
        self.numbers[at..at + N].copy_from_slice(&numbers);
        self.row += 1;
    }
}
