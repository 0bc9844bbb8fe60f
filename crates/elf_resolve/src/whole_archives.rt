//! The archives of a link of which all members are taken.
ghost use Rattle.std.specs.Prelude.{◌≡◌, ℕ, List, [], ◌∷◌, OnOk, Some};
ghost use Rattle.std.specs.List.{slice_get};
ghost use Rattle.elf_model.specs.Archive.{bytes_in};
ghost use Rattle.elf_model.specs.LinkArchives.{LinkFiles, LinkMember, link_members, or_empty, whole_members};
ghost use Rattle.elf_model.specs.LinkInputs.{members_taken, whole_row, with_object};
ghost use Rattle.elf_model.specs.LinkSymbols.{object_of};
ghost use Rattle.elf_resolve.specs.LinkMembers.{file_of_range};
ghost use Rattle.elf_resolve.specs.OpenedArchives.{HasMembers};
ghost use Rattle.elf_resolve.specs.Resolved.{linking_of};
ghost use Rattle.elf_resolve.specs.ResolvedInputs.{TookMembers};
ghost use Rattle.elf_resolve.specs.EndsAtRefusal.{LeavesRows, NoneRefused};
ghost use Rattle.elf_resolve.specs.NamedRows.{KeepsRowNames};

use crate::archive_searches::{MemberPlace, member_row, range_of, take_member};
use crate::archives::OpenedArchive;
use crate::link_faults::{LinkFault, refused};
use crate::member_files::is_file;
use crate::resolver::Resolver;
use elf_model::LinkCause;
use elf_source::{Counted, RangeSource, Source};

impl Resolver<'_> {
    /// Takes all members of an archive that are files, in order.
    ///
    /// # Errors
    /// The first fault of a member.
    pub(crate) fn take_whole<S: Source>(
        &mut self,
        src: &mut Counted<RangeSource<S>>,
        archive: OpenedArchive,
    ) -> Result<(), LinkFault>
        ensures takes { (file : List ℕ) → file_of_range src.old.seen ≡ Some file →
            HasMembers file self.old.tables.members.items archive →
            OnOk result (TookMembers self.old self.new (members_taken archive.input archive.row
            (linking_of self.old)
            (whole_members file 0 (link_members file).members self.old.room.headers))) }
        ensures leaves { (files : LinkFiles) (file : List ℕ) →
            file_of_range src.old.seen ≡ Some file →
            HasMembers file self.old.tables.members.items archive →
            files.headers ≡ self.old.room.headers → files.file archive.input ≡ Some file →
            NoneRefused files self.old.link.rows.rows →
            LeavesRows files ⊥ self.new (members_taken archive.input archive.row
            (linking_of self.old)
            (whole_members file 0 (link_members file).members self.old.room.headers)).rows
            result }
        ensures names { (files : LinkFiles) (file : List ℕ) →
            files.file archive.input ≡ Some file → file_of_range src.old.seen ≡ Some file →
            HasMembers file self.old.tables.members.items archive →
            OnOk result (KeepsRowNames files self.old self.new) }
        ensures most { src.new.most ≡ src.old.most }
    {
        let count = range_of(&self.tables.members, archive.members).len();
        let Ok(count) = u32::try_from(count) else {
            return refused(0, LinkCause::TooManyRows);
        };
        for number in 0..count {
            self.take_if_file(src, archive, number)?;
        }
        Ok(())
    }

    /// Takes a member of an archive, if it is a file.
    ///
    /// # Errors
    /// The first fault of the member.
    fn take_if_file<S: Source>(
        &mut self,
        src: &mut Counted<RangeSource<S>>,
        archive: OpenedArchive,
        member: u32,
    ) -> Result<(), LinkFault>
        ensures below { src.new.seen.whole ≡ src.old.seen.whole }
        ensures most { src.new.most ≡ src.old.most }
        ensures takes { (file : List ℕ) (m : LinkMember) → file_of_range src.old.seen ≡ Some file →
            HasMembers file self.old.tables.members.items archive →
            slice_get (link_members file).members member ≡ Some m →
            OnOk result (TookMembers self.old self.new (members_taken archive.input archive.row
            (linking_of self.old) (whole_members file member (m ∷ []) self.old.room.headers))) }
        ensures leaves { (files : LinkFiles) (file : List ℕ) (m : LinkMember) →
            file_of_range src.old.seen ≡ Some file →
            HasMembers file self.old.tables.members.items archive →
            slice_get (link_members file).members member ≡ Some m →
            files.headers ≡ self.old.room.headers → files.file archive.input ≡ Some file →
            NoneRefused files self.old.link.rows.rows →
            LeavesRows files ⊥ self.new (members_taken archive.input archive.row
            (linking_of self.old) (whole_members file member (m ∷ []) self.old.room.headers)).rows
            result }
        ensures names { (files : LinkFiles) (file : List ℕ) →
            files.file archive.input ≡ Some file → file_of_range src.old.seen ≡ Some file →
            HasMembers file self.old.tables.members.items archive →
            OnOk result (KeepsRowNames files self.old self.new) }
    {
        let members = range_of(&self.tables.members, archive.members);
        let is_taken = is_file(src, members, member)?;
        if !is_taken {
            return Ok(());
        }
        self.take_row(src, archive, member)
    }

    /// Takes a member of an archive, which is a file.
    ///
    /// # Errors
    /// The first fault of the member; there is no room for its row.
    fn take_row<S: Source>(
        &mut self,
        src: &mut Counted<RangeSource<S>>,
        archive: OpenedArchive,
        member: u32,
    ) -> Result<(), LinkFault>
        ensures below { src.new.seen.whole ≡ src.old.seen.whole }
        ensures most { src.new.most ≡ src.old.most }
        ensures takes { (file : List ℕ) (m : LinkMember) → file_of_range src.old.seen ≡ Some file →
            HasMembers file self.old.tables.members.items archive →
            slice_get (link_members file).members member ≡ Some m →
            OnOk result (TookMembers self.old self.new (with_object (linking_of self.old)
            (whole_row archive.input archive.row member)
            (or_empty (object_of (bytes_in file m.extent) self.old.room.headers)))) }
        ensures leaves { (files : LinkFiles) (file : List ℕ) (m : LinkMember) →
            file_of_range src.old.seen ≡ Some file →
            HasMembers file self.old.tables.members.items archive →
            slice_get (link_members file).members member ≡ Some m →
            files.headers ≡ self.old.room.headers → files.file archive.input ≡ Some file →
            NoneRefused files self.old.link.rows.rows →
            LeavesRows files ⊥ self.new (with_object (linking_of self.old)
            (whole_row archive.input archive.row member)
            (or_empty (object_of (bytes_in file m.extent) self.old.room.headers))).rows result }
        ensures names { (files : LinkFiles) (file : List ℕ) →
            files.file archive.input ≡ Some file → file_of_range src.old.seen ≡ Some file →
            HasMembers file self.old.tables.members.items archive →
            OnOk result (KeepsRowNames files self.old self.new) }
    {
        let row = self.link.rows.add(member_row(archive, member));
        self.row = row;
        let Some(row) = row else {
            return refused(0, LinkCause::TooManyRows);
        };
        let place = MemberPlace {
            archive,
            member,
            row,
        };
        let keys = &mut self.link.keys;
        take_member(src, &mut self.room, &self.tables, place, keys)
    }
}
