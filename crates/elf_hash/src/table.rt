//! A hash table of either style.
use crate::gnu_table::GnuHashTable;
use crate::sysv_table::SysvHashTable;

/// A hash table of either style, whose counts fit its size.
#[derive(Clone, Copy)]
pub enum HashTable {
    /// A GNU hash table.
    Gnu(GnuHashTable),
    /// A SysV hash table.
    Sysv(SysvHashTable),
}
