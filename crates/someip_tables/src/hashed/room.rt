//! How many entries a table may hold, and that it is full.
ghost use Rattle.std.specs.Prelude.{◌≡◌, ◌||◌, nat_lt, true, false};
ghost use Rattle.someip_tables.specs.hashed.Rooms.{told_when_full};

/// How many entries a table may hold, and whether it was told that it is full.
#[derive(Clone, Copy, Debug, PartialEq, Eq)]
pub struct Room {
    /// How many entries the table may hold.
    pub limit: usize,
    /// Whether it was told that the table is full.
    pub told_full: bool,
}

impl Room {
    /// Room for so many entries. It was not told yet that the table is full.
    pub fn new(limit: usize) -> Room
        ensures { result ≡ record { limit = limit; told_full = false } }
    {
        Room {
            limit,
            told_full: false,
        }
    }

    /// Whether an entry may be held: one of its key is, or the entries are fewer than the limit.
    pub fn may_hold(&self, is_held: bool, len: usize) -> bool
        ensures { result ≡ (is_held || nat_lt len self.now.limit) }
    {
        is_held || len < self.limit
    }

    /// Tells that the table is full, once.
    pub fn tell_full<F: Copy>(&mut self, full: F) -> Option<F>
        ensures told { result ≡ told_when_full full self.old.told_full }
        ensures after { self.new ≡ record self.old { told_full = true } }
    {
        if self.told_full {
            return None;
        }
        self.told_full = true;
        Some(full)
    }
}
