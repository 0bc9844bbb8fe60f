//! The files of a link, and the budget of all that is read of them.
ghost use Rattle.std.specs.Prelude.{◌≡◌, ℕ, List, IfErr, IfOk, None, Some};
ghost use Rattle.elf_source.specs.Prelude.{counted, left};
ghost use Rattle.elf_resolve.specs.LinkMembers.{file_of_range};
ghost use Rattle.elf_resolve.specs.ReadBudgets.{OpensWithin};
ghost use Rattle.elf_resolve.specs.Taken.{IsLinkFault};

use crate::link_faults::LinkFault;
use crate::link_files::{InputFiles, OpenFault};
use crate::read_budget::ReadBudget;
use elf_source::{Counted, RangeSource, Source};

/// The files of a link, of which no more is read in all than a budget allows.
#[derive(Drop)]
pub struct BudgetedFiles<F: InputFiles> {
    /// The files.
    pub files: F,
    /// What is left of the budget.
    pub budget: ReadBudget,
}

impl<F: InputFiles> BudgetedFiles<F> {
    /// Creates files of which so many bytes may be requested, or any number.
    pub fn new(files: F, budget: Option<u64>) -> BudgetedFiles<F>
        ensures files { result.files ≡ files }
        ensures budget { result.budget ≡ record { left = budget; asked = 0 } }
    {
        BudgetedFiles {
            files,
            budget: ReadBudget::new(budget),
        }
    }

    /// Opens the file of an input, of which no more is read than is left of the budget. Nothing is
    /// left for other files until it is closed.
    ///
    /// # Errors
    /// It cannot be opened.
    pub(crate) fn open(
        &mut self,
        input: u32,
    ) -> Result<Counted<RangeSource<F::InputSource>>, LinkFault>
        ensures within { OpensWithin self.old.budget self.new.budget result }
        ensures file { F.file self.new.files ≡ F.file self.old.files }
        ensures text { F.text self.new.files ≡ F.text self.old.files }
        ensures opens { (file : List ℕ) → F.file self.old.files input ≡ Some file → IfOk result
            (λ src. (src.seen.file ≡ Some file) × (file_of_range src.seen ≡ Some file)) }
        ensures limit { IfErr result (IsLinkFault None) }
    {
        match self.files.open(input) {
            Ok(source) => {
                let mut src = Counted::new(RangeSource::new(source));
                src.limit(self.budget.take_left());
                Ok(src)
            }
            Err(OpenFault::Open) => Err(LinkFault::Open),
            Err(OpenFault::Read) => Err(LinkFault::Read),
        }
    }

    /// Puts back what is left of the budget after a file, which is not read any more.
    pub(crate) fn close<S: Source>(&mut self, src: &Counted<S>)
        ensures files { self.new.files ≡ self.old.files }
        ensures pays { self.new.budget ≡ record {
          left = left src.now;
          asked = counted self.old.budget.asked src.now.asked;
        } }
    {
        self.budget.put_back(src.left(), src.asked());
    }
}
