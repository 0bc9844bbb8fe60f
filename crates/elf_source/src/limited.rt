//! Calls that read within a limit.
ghost use Rattle.std.specs.Prelude.{◌≡◌, ◌-◌, option_map};
ghost use Rattle.elf_source.specs.Limited.{MayReadWithin, ReadsWithin};
ghost use Rattle.elf_source.specs.Source.{CountedState, SetsLimit};

use crate::counted::Counted;
use crate::source::Source;

/// A source with a limit on the number of bytes that may be requested: a [`Counted`].
pub trait Limited {
    /// Its state.
    ghost state: { Self → CountedState };

    /// Returns the number of bytes requested, as [`Counted::asked`] does.
    fn asked(&self) -> u128
        ensures { result ≡ (state self.now).asked };

    /// Sets the limit, as [`Counted::limit`] does.
    fn limit(&mut self, bytes: Option<u64>)
        ensures { SetsLimit (state self.old) (state self.new) bytes };

    /// Calls `read` while a limit is set. On return no limit is set.
    final fn within<R, F: FnMut(&mut Self) -> R>(&mut self, bytes: Option<u64>, read: &mut F) -> R
        requires { MayReadWithin state F.FnMut read.old self.old bytes }
        ensures { ReadsWithin state F.FnMut read.old read.new self.old self.new bytes result }
    {
        self.limit(bytes);
        let result = read(self);
        self.limit(None);
        result
    }

    /// Calls `read` within what is left of a budget, if there is one, and subtracts what was
    /// requested. On return no limit is set.
    final fn charge<R, F: FnMut(&mut Self) -> R>(
        &mut self,
        left: &mut Option<u64>,
        read: &mut F,
    ) -> R
        requires { MayReadWithin state F.FnMut read.old self.old left.old }
        ensures reads { ReadsWithin state F.FnMut read.old read.new self.old self.new left.old
            result }
        ensures pays { left.new ≡ option_map (λ bytes.
            bytes - ((state self.new).asked - (state self.old).asked)) left.old }
    {
        let before = self.asked();
        let result = self.within(*left, read);
        if let Some(bytes) = *left {
            let spent = self.asked().saturating_sub(before);
            let spent = u64::try_from(spent).unwrap_or(u64::MAX);
            *left = Some(bytes.saturating_sub(spent));
        }
        result
    }
}

impl<S: Source> Limited for Counted<S> {
    ghost state = { λ c. c };

    fn asked(&self) -> u128 {
        self.asked()
    }

    fn limit(&mut self, bytes: Option<u64>) {
        self.limit(bytes);
    }
}
