//! Which windows of a segment a place meets.
ghost use Rattle.std.specs.Prelude.{◌≡◌, ◌+◌, ◌-◌, ◌/◌, ◌<◌, ◌≤◌, ◌||◌, ℕ, false, min};
ghost use Rattle.elf_image.specs.Marks.{is_window_marked, marked_windows, meets_range};

use crate::chunks::EntryChunks;

/// The number of windows that are marked.
const MARKED_WINDOWS: usize = 4096;

/// What a check of all relocations notes: a mark for each window that a place meets, of the first
/// 4,096 windows, where later ones count as met; and at which addresses the entries of the first
/// table store.
#[derive(Clone, Copy)]
pub(crate) struct WindowMarks {
    met: [bool; MARKED_WINDOWS],
    pub(crate) chunks: EntryChunks,
}

impl WindowMarks {
    /// Returns no marks.
    pub(crate) fn new() -> WindowMarks
        ensures { (k : ℕ) → k < 4096 → is_window_marked result.met k ≡ false }
    {
        WindowMarks {
            met: [false; MARKED_WINDOWS],
            chunks: EntryChunks::new(),
        }
    }

    /// Marks the windows of `size` bytes each that `width` bytes at an offset meet.
    pub(crate) fn mark(&mut self, offset: u64, width: u64, size: u64)
        requires { 0 < size }
        ensures { (k : ℕ) → k < 4096 →
            is_window_marked self.new.met k
            ≡ (is_window_marked self.old.met k || meets_range size k offset width) }
    {
        if width == 0 {
            return;
        }
        let last = last_window(offset, width, size);
        let mut window = offset / size;
        while window <= last {
            self.met[window as usize] = true;
            window += 1;
        }
    }

    /// Returns `true` if a window is marked.
    pub(crate) fn is_marked(&self, window: u64) -> bool
        ensures { result ≡ is_window_marked self.now.met window }
    {
        window >= MARKED_WINDOWS as u64 || self.met[window as usize]
    }

    /// Returns how many of the first `count` windows are marked.
    pub(crate) fn marked(&self, count: u64) -> u64
        ensures few { result ≤ count }
        ensures value { result ≡ marked_windows self.now.met count }
    {
        let mut met = 0;
        for window in 0..count {
            if self.is_marked(window) {
                met += 1;
            }
        }
        met
    }
}

/// Returns the index of the window of `size` bytes that has the last of `width` bytes at an offset,
/// at most that of the last mark. Bytes in one window take no division of 128 bits.
fn last_window(offset: u64, width: u64, size: u64) -> u64
    requires some { 0 < size }
    requires wide { 0 < width }
    ensures { result ≡ min ((offset + (width - 1)) / size) 4095 }
{
    if width <= size - offset % size {
        return (offset / size).min(MARKED_WINDOWS as u64 - 1);
    }
    let end = u128::from(offset) + u128::from(width - 1);
    (end / u128::from(size)).min(MARKED_WINDOWS as u128 - 1) as u64
}
