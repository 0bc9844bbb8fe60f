//! What a device does, call by call.
use std::cell::Cell;
use std::io::ErrorKind;

/// What goes wrong at a call of a device.
#[derive(Clone, Copy)]
pub enum InjectedFault {
    /// The call fails.
    Fails(ErrorKind),
    /// The device reports its end.
    Ends,
}

/// What happens at the next calls of a device, and what was requested from it. A call that is
/// interrupted is counted, and nothing else goes wrong at it.
#[derive(Drop)]
pub struct FaultScript {
    // How many of the next seeks are interrupted, how many of the next reads or writes, and how
    // many after each of those that succeeds.
    seeks_interrupted: Cell<u32>,
    turns_interrupted: Cell<u32>,
    then_interrupted: Cell<u32>,
    // What goes wrong, once, and how many calls succeed before it.
    trouble: Cell<Option<InjectedFault>>,
    well: Cell<u32>,
    calls: Cell<u32>,
    seeks: Cell<u32>,
    // The end of the requested bytes.
    asked_to: Cell<u64>,
}

impl FaultScript {
    /// Creates a script in which every call succeeds.
    pub fn new() -> Self {
        FaultScript {
            seeks_interrupted: Cell::new(0),
            turns_interrupted: Cell::new(0),
            then_interrupted: Cell::new(0),
            trouble: Cell::new(None),
            well: Cell::new(0),
            calls: Cell::new(0),
            seeks: Cell::new(0),
            asked_to: Cell::new(0),
        }
    }

    /// Lets the given number of calls succeed, and then one fail.
    pub fn go_wrong(&self, well: u32, trouble: InjectedFault) {
        self.well.set(well);
        self.trouble.set(Some(trouble));
    }

    /// Interrupts the given numbers of the next seeks, of the next reads or writes, and of those
    /// after each one that succeeds.
    pub fn interrupt(&self, seeks: u32, turns: u32, then: u32) {
        self.seeks_interrupted.set(seeks);
        self.turns_interrupted.set(turns);
        self.then_interrupted.set(then);
    }

    /// Returns how often the device was called.
    pub fn calls(&self) -> u32 {
        self.calls.get()
    }

    /// Returns how many of its seeks succeeded.
    pub fn seeks(&self) -> u32 {
        self.seeks.get()
    }

    /// Returns the largest end of the requested ranges.
    pub fn asked_to(&self) -> u64 {
        self.asked_to.get()
    }

    /// Makes a seek, and returns what goes wrong at it.
    pub(crate) fn seek(&self) -> Option<InjectedFault> {
        let trouble = self.call(&self.seeks_interrupted);
        if matches!(trouble, None) {
            rise(&self.seeks);
        }
        trouble
    }

    /// Makes a read or a write, and returns what goes wrong at it.
    pub(crate) fn turn(&self) -> Option<InjectedFault> {
        let trouble = self.call(&self.turns_interrupted);
        if matches!(trouble, None) {
            self.turns_interrupted.set(self.then_interrupted.get());
        }
        trouble
    }

    /// Records that bytes were requested up to this offset.
    pub(crate) fn ask_to(&self, end: u64) {
        self.asked_to.set(self.asked_to.get().max(end));
    }

    // Makes a call, which may be one of those that are interrupted, and returns what goes wrong at
    // it.
    fn call(&self, interrupted: &Cell<u32>) -> Option<InjectedFault> {
        rise(&self.calls);
        if falls(interrupted) {
            return Some(InjectedFault::Fails(ErrorKind::Interrupted));
        }
        if falls(&self.well) {
            return None;
        }
        let trouble = self.trouble.get();
        self.trouble.set(None);
        trouble
    }
}

// Adds one to the count.
fn rise(count: &Cell<u32>) {
    count.set(count.get().saturating_add(1));
}

// Subtracts one from the count, and returns whether it was not 0.
fn falls(count: &Cell<u32>) -> bool {
    let left = count.get();
    count.set(left.saturating_sub(1));
    left > 0
}
