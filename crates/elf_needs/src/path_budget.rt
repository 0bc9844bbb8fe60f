//! How many paths may still be tried.
ghost use Rattle.std.specs.Prelude.{◌≡◌, ◌+◌, ◌≤◌, false, true};

/// How many paths may still be tried, and whether one more was to be.
#[derive(Clone, Copy)]
pub(crate) struct PathBudget {
    /// How many may be.
    pub left: u64,
    /// Whether one more was to be tried than may be.
    pub is_over: bool,
}

impl PathBudget {
    /// Creates room for so many paths, of which none was tried.
    pub(crate) fn new(left: u64) -> PathBudget
        ensures { result ≡ record { left = left; is_over = false } }
    {
        PathBudget {
            left,
            is_over: false,
        }
    }

    /// Counts one more path. Returns whether it may be tried.
    pub(crate) fn take(&mut self) -> bool
        ensures counted { result ≡ true → self.old.left ≡ self.new.left + 1 }
        ensures still { result ≡ true → self.new.is_over ≡ self.old.is_over }
        ensures over { result ≡ false → self.new.is_over ≡ true }
        ensures few { self.new.left ≤ self.old.left }
    {
        if self.left == 0 {
            self.is_over = true;
            return false;
        }
        self.left -= 1;
        true
    }
}
