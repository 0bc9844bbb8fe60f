//! A sink that writes the line of a path before the first bytes.
ghost use Rattle.std.specs.Prelude.{◌≡◌, true, None, OnOk};
ghost use Rattle.elf_source.specs.Output.{OutPuts, nothing_held};
ghost use Rattle.elf_walk.specs.Headed.{text_headed};

use elf_format::show_path;
use elf_model::Format;
use elf_source::{Out, OutFault, Sink, SinkFault};

/// A sink over an output, which writes the line of a path before the first bytes that it takes: if
/// it takes none, nothing is written.
#[derive(Drop)]
pub struct HeadedSink<'a, W: Sink> {
    out: &'a mut Out<W>,
    path: &'a [u8],
    format: Format,
    begun: bool,
}

impl<'a, W: Sink> HeadedSink<'a, W> {
    /// Creates a sink over `out`, before the line of `path`.
    pub fn new(out: &'a mut Out<W>, path: &'a [u8], format: Format) -> HeadedSink<'a, W> {
        HeadedSink {
            out,
            path,
            format,
            begun: false,
        }
    }

    /// Writes the line of the path, if it was not written yet, and then `bytes`.
    ///
    /// # Errors
    /// A fault of the output, with a prefix of them written.
    fn put(&mut self, bytes: &[u8]) -> Result<(), OutFault>
        ensures puts { OutPuts self.old.out.now self.new.out.now result
            (text_headed self.old.format self.old.path.now self.old.begun bytes.now) }
        ensures begun { OnOk result (self.new.begun ≡ true) }
    {
        if self.begun {
            return self.out.put(bytes);
        }
        show_path(self.path, self.format, self.out)?;
        self.begun = true;
        match self.out.put(bytes) {
            Ok(()) => Ok(()),
            Err(fault) => Err(fault),
        }
    }
}

impl<'a, W: Sink> Sink for HeadedSink<'a, W> {
    ghost taken = { λ _. None };

    ghost failed = { λ s. s.out.now.failed };

    ghost held = { λ _. nothing_held };

    ghost room = { λ _. nothing_held };

    /// Takes all of `bytes`.
    ///
    /// # Errors
    /// Returns `SinkFault` if the output has failed or fails, perhaps after some of them.
    fn take(&mut self, bytes: &[u8]) -> Result<usize, SinkFault> {
        if self.failed() {
            return Err(SinkFault);
        }
        match self.put(bytes) {
            Ok(()) => Ok(bytes.len()),
            Err(_) => Err(SinkFault),
        }
    }

    fn failed(&self) -> bool {
        self.out.failed()
    }
}
