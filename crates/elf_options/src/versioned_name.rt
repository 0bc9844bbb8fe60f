//! A name with its version, compared with texts.
ghost use Rattle.std.specs.Prelude.{◌≡◌, ◌++◌, take, drop};
ghost use Rattle.std.specs.Cmp.Lexicographic.{slice_cmp};
ghost use Rattle.std.specs.Ordering.{nat_cmp};
ghost use Rattle.elf_options.specs.Joins.{joined_text};

use std::cmp::Ordering;

/// A name, a sign and a version, which together are one text.
#[derive(Clone, Copy)]
pub struct VersionedName<'a> {
    /// The name.
    pub name: &'a [u8],
    /// The sign between them.
    pub sign: &'static [u8],
    /// The version.
    pub version: &'a [u8],
}

impl VersionedName<'_> {
    /// Compares a text with this one, byte by byte.
    #[tactic(auto, using(crate::proofs::JoinedLaws::compared_after))]
    pub(crate) fn compare(&self, text: &[u8]) -> Ordering
        ensures { result ≡ slice_cmp nat_cmp text.now (joined_text self.now) }
    {
        let (front, behind) = split_at_sign(text, self.name.len());
        match front.cmp(self.name) {
            Ordering::Equal => self.compare_after(behind),
            order => order,
        }
    }

    /// Compares the part after the name with the same part of this text.
    #[tactic(auto, using(crate::proofs::JoinedLaws::compared_after))]
    fn compare_after(&self, behind: &[u8]) -> Ordering
        ensures { result ≡ slice_cmp nat_cmp behind.now
            (self.now.sign.now ++ self.now.version.now) }
    {
        let (sign, version) = split_at_sign(behind, self.sign.len());
        match sign.cmp(self.sign) {
            Ordering::Equal => version.cmp(self.version),
            order => order,
        }
    }
}

/// Splits a text after the given number of bytes, or at its end.
fn split_at_sign(text: &[u8], place: usize) -> (&[u8], &[u8])
    ensures front { result.0.now ≡ take place text.now }
    ensures behind { result.1.now ≡ drop place text.now }
{
    let end = place.min(text.len());
    (&text[..end], &text[end..])
}
