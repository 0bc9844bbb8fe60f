//! A writer that takes little.
ghost use Rattle.std.specs.Prelude.{◌≡◌, []};

use crate::script::{FaultScript, InjectedFault};
use std::alloc::Global;
use std::io;
use std::io::{Error, Write};

/// A writer that takes at most a given number of bytes per write.
#[derive(Drop)]
pub struct ShortWriter<'a> {
    /// What was written.
    pub written: Vec<u8>,
    most: usize,
    script: &'a FaultScript,
}

impl<'a> ShortWriter<'a> {
    /// Creates a writer that takes at most `most` bytes per write, and follows its script.
    pub fn new(most: usize, script: &'a FaultScript, alloc: Global) -> Self
        ensures written { result.written.items ≡ [] }
        ensures most { result.most ≡ most }
    {
        ShortWriter {
            written: Vec::new(alloc),
            most,
            script,
        }
    }
}

impl<'a> Write for ShortWriter<'a> {
    fn write(&mut self, buf: &[u8]) -> io::Result<usize> {
        match self.script.turn() {
            Some(InjectedFault::Fails(kind)) => return Err(Error::from(kind)),
            Some(InjectedFault::Ends) => return Ok(0),
            None => {}
        }
        let most = buf.len().min(self.most);
        self.written.write(&buf[..most])
    }

    fn flush(&mut self) -> io::Result<()> {
        Ok(())
    }
}
