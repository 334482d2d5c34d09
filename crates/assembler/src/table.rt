// A table over lent records: the first `count` of them are filled. Written once for any kind of record.
ghost use Rattle.std.specs.Prelude.{◌≡◌, ◌+◌, ◌-◌, ◌<◌, ◌≤◌, not, [], ◌∷◌, ◌++◌, length, take, drop, is_ok, if◌then◌else◌, MatchOption, nat_lt, slice_index_or, slice_set};

/// No record is free.
#[derive(Clone, Copy, PartialEq, Eq, Debug)]
pub struct Full;

// Stays: a slice with a count beside it, since the records are lent and nothing here allocates.
#[derive(Drop)]
pub struct Table<'a, R> {
    records: &'a mut [R],
    count: usize,
    ghost ok: { count ≤ length records.now },
}

impl<'a, R: Copy> Table<'a, R> {
    /// A table with none filled. The records stay as they are.
    pub fn new(records: &'a mut [R]) -> Table<'a, R>
        ensures none { result.count ≡ 0 }
        ensures same { result.records.now ≡ records.old }
        ensures named { result.records.ghost_name ≡ records.entry.ghost_name }
    {
        Table { records, count: 0 }
    }

    /// How many are filled.
    pub fn len(&self) -> usize
        ensures { result ≡ self.now.count }
    {
        self.filled().len()
    }

    /// Those that are filled.
    pub fn filled(&self) -> &[R]
        ensures { result.now ≡ take self.now.count self.now.records.now }
    {
        &self.records[..self.count]
    }

    /// How many are free.
    pub fn free(&self) -> usize
        ensures { result ≡ length self.now.records.now - self.now.count }
    {
        self.records.len() - self.count
    }

    /// Whether none is free.
    pub fn is_full(&self) -> bool
        ensures { result ≡ not (nat_lt self.now.count (length self.now.records.now)) }
    {
        self.count >= self.records.len()
    }

    /// The record at a place, if it is filled.
    pub fn get(&self, i: usize) -> Option<R>
        ensures { MatchOption result (self.now.count ≤ i) (λ r. (i < self.now.count) × (r ≡ slice_index_or self.now.records.now i r)) }
    {
        self.filled().get(i).copied()
    }

    /// Fills the first free record; where there is none, nothing changes.
    pub fn push(&mut self, r: R) -> Result<(), Full>
        ensures told { is_ok result ≡ nat_lt self.old.count (length self.old.records.now) }
        ensures kept { self.new.records.now ≡ (if is_ok result then slice_set self.old.records.now self.old.count r else self.old.records.now) }
        ensures counted { self.new.count ≡ (if is_ok result then self.old.count + 1 else self.old.count) }
        ensures filled { take self.new.count self.new.records.now ≡ (if is_ok result then take self.old.count self.old.records.now ++ (r ∷ []) else take self.old.count self.old.records.now) }
        ensures spare { drop self.new.count self.new.records.now ≡ drop self.new.count self.old.records.now }
        ensures named { self.new.records.ghost_name ≡ self.old.records.ghost_name }
    {
        if self.count < self.records.len() {
            self.records[self.count] = r;
            self.count += 1;
            Ok(())
        } else {
            Err(Full)
        }
    }
}
