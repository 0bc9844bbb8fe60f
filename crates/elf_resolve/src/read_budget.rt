//! How much of the files of a link may be read, and how much was.
ghost use Rattle.std.specs.Prelude.{◌≡◌, option_map};
ghost use Rattle.elf_source.specs.Prelude.{counted};

/// What is left of the budget of a link, and how many bytes were requested of its files.
#[derive(Clone, Copy)]
pub struct ReadBudget {
    /// How many bytes may still be requested, if there is a limit; 0 while a file is open, since
    /// its source has what is left.
    pub left: Option<u64>,
    /// How many bytes were requested of the files that were closed. It stays at 2^128 - 1.
    pub asked: u128,
}

impl ReadBudget {
    /// Creates a budget of which nothing was requested.
    pub(crate) fn new(left: Option<u64>) -> ReadBudget
        ensures { result ≡ record { left = left; asked = 0 } }
    {
        ReadBudget { left, asked: 0 }
    }

    /// Takes out what is left, for a file that is opened.
    pub(crate) fn take_left(&mut self) -> Option<u64>
        ensures left { result ≡ self.old.left }
        ensures takes { self.new
            ≡ record self.old { left = option_map (λ bytes. 0) self.old.left } }
    {
        let left = self.left;
        if left.is_some() {
            self.left = Some(0);
        }
        left
    }

    /// Puts back what a file left, and adds what was requested of it.
    pub(crate) fn put_back(&mut self, left: Option<u64>, asked: u128)
        ensures { self.new ≡ record { left = left; asked = counted self.old.asked asked } }
    {
        self.left = left;
        self.asked = self.asked.saturating_add(asked);
    }
}
