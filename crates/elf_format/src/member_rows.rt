//! The lines of an archive's members.
ghost use Rattle.std.specs.Prelude.{◌≡◌, ◌≤◌, length};
ghost use Rattle.elf_format.specs.Fronts.{front_of};
ghost use Rattle.elf_model.specs.Archive.{member_prefix};

use crate::fields::{LinePrefix, begin_named, put_decimal, put_hex_field};
use crate::render::Render;

/// Fills the prefix with the `A` line of an archive's member up to the name: its index, and the
/// file offset and the size in bytes of its data.
#[tactic(auto, unfolding(elf_model::specs::Archive::member_prefix))]
pub fn member_prefix<R: Render>(front: &mut LinePrefix, index: u64, at: u64, size: u64)
    ensures front { front_of front.new ≡ member_prefix R.FORMAT index at size }
    ensures key { length front.new.key.now ≤ 16 }
{
    begin_named::<R>(front, b"A", b"name");
    let line = &mut front.line;
    put_decimal::<R>(line, b"index", 5, index, b' ');
    put_hex_field::<R>(line, b"offset", 16, 9, at, b' ');
    put_hex_field::<R>(line, b"size", 16, 9, size, b' ');
}
