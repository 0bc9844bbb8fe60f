//! The path that an argument of a command line names.
ghost use Rattle.std.specs.Prelude.{◌≡◌, codes};

/// Returns the path to open for an argument that names a file.
///
/// `-` is standard input, by the path at which the system opens that file anew, so that it is read
/// at offsets independently of what was read of it before. Every other argument is its own path; a
/// file named `-` is `./-`.
pub fn opened_path(word: &str) -> &str
    ensures input { word.now ≡ codes "-" → result.now ≡ codes "/dev/stdin" }
    ensures other { (word.now ≡ codes "-" → ⊥) → result.now ≡ word.now }
{
    if word == "-" {
        return "/dev/stdin";
    }
    word
}
