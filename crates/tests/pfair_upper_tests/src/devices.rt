//! Readers and writers that are slow, that count, or that fail once.

use std::alloc::Global;
use std::io;
use std::io::{Read, Write};

/// Gives at most `at_once` bytes a call, and fails at the call `failing` alone, counted from 0.
#[derive(Drop)]
pub(crate) struct Source<'a> {
    pub(crate) left: &'a [u8],
    pub(crate) at_once: usize,
    pub(crate) calls: usize,
    pub(crate) failing: usize,
}

impl<'a> Source<'a> {
    /// A reader of these bytes that never fails.
    pub(crate) fn of(left: &'a [u8], at_once: usize) -> Source<'a> {
        Source {
            left,
            at_once,
            calls: 0,
            failing: usize::MAX,
        }
    }
}

impl Read for Source<'_> {
    fn read(&mut self, buf: &mut [u8]) -> io::Result<usize> {
        let call = self.calls;
        self.calls = call.saturating_add(1);
        if call == self.failing {
            return Err(io::Error::from(io::ErrorKind::Interrupted));
        }
        let count = self.left.len().min(buf.len()).min(self.at_once);
        buf[..count].copy_from_slice(&self.left[..count]);
        self.left = &self.left[count..];
        Ok(count)
    }
}

/// Takes at most `at_once` bytes a call; at the call `failing` alone, counted from 0, it fails or takes none.
///
/// It counts its calls, of `write` and of `flush`, and the bytes that it had taken when it was last flushed.
#[derive(Drop)]
pub(crate) struct Sink {
    pub(crate) taken: Vec<u8>,
    pub(crate) flushed: usize,
    pub(crate) calls: usize,
    pub(crate) at_once: usize,
    pub(crate) failing: usize,
    pub(crate) takes_none: bool,
}

impl Sink {
    /// A writer that fails at this call.
    pub(crate) fn failing_at(alloc: Global, at_once: usize, failing: usize) -> Sink {
        Sink {
            taken: Vec::new(alloc),
            flushed: 0,
            calls: 0,
            at_once,
            failing,
            takes_none: false,
        }
    }

    /// A writer that never fails.
    pub(crate) fn of(alloc: Global, at_once: usize) -> Sink {
        Sink::failing_at(alloc, at_once, usize::MAX)
    }

    // Counts a call, and returns whether it is the one that fails.
    fn call(&mut self) -> bool {
        let call = self.calls;
        self.calls = call.saturating_add(1);
        call == self.failing
    }
}

impl Write for Sink {
    fn write(&mut self, buf: &[u8]) -> io::Result<usize> {
        if self.call() {
            return if self.takes_none {
                Ok(0)
            } else {
                Err(io::Error::from(io::ErrorKind::Interrupted))
            };
        }
        let count = buf.len().min(self.at_once);
        self.taken.extend_from_slice(&buf[..count])?;
        Ok(count)
    }

    fn flush(&mut self) -> io::Result<()> {
        if self.call() {
            return Err(io::Error::from(io::ErrorKind::Interrupted));
        }
        self.flushed = self.taken.len();
        Ok(())
    }
}
