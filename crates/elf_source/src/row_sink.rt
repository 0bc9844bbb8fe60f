//! A sink of rows that may have a location.
ghost use Rattle.std.specs.Prelude.{◌≡◌};

use crate::holding_sink::DeferredSink;
use crate::output::Out;
use crate::sink::Sink;
use crate::write_sink::WriteSink;
use std::io::Write;

/// Takes rows, and may say of each where it is.
pub trait RowSink: Sink {
    /// Returns `true` if rows have a location.
    fn adds_location(&self) -> bool;

    /// Sets the location of the rows of a member of an archive that are taken from now on, if rows
    /// have one: text that is inserted after that of the file, except in the line of a member.
    /// Without text there is no member.
    fn locate_member(&mut self, text: &[u8])
        ensures taken { Self.taken self.new ≡ Self.taken self.old }
        ensures failed { Self.failed self.new ≡ Self.failed self.old }
        ensures held { Self.held self.new ≡ Self.held self.old }
        ensures room { Self.room self.new ≡ Self.room self.old };
}

impl<W: Write> RowSink for WriteSink<W> {
    fn adds_location(&self) -> bool {
        false
    }

    fn locate_member(&mut self, _text: &[u8]) {}
}

impl<W: RowSink> DeferredSink<W> {
    /// Sets the location of the rows of a member, if rows have one.
    fn locate_member(&mut self, text: &[u8])
        ensures { self.new ≡ self.old }
    {
        self.sink.locate_member(text);
    }
}

impl<W: RowSink> Out<DeferredSink<W>> {
    /// Returns `true` if rows have a location.
    pub fn adds_location(&self) -> bool {
        self.sink.sink.adds_location()
    }

    /// Sets the location of the rows of a member of an archive that are written from now on, if rows
    /// have one.
    pub fn locate_member(&mut self, text: &[u8])
        ensures { self.new ≡ self.old }
    {
        self.sink.locate_member(text);
    }
}
