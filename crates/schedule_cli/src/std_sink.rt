use sched_base::{Failed, Sink};
use std::alloc::Global;
use std::io;
use std::io::{BufWriter, ErrorKind, Printer, Write};

/// So many bytes are handed on at a time.
const PIECE: usize = 65_536;

/// A write that a signal interrupts is tried so often.
const TRIES: u32 = 1_000_000;

/// The standard output. It keeps what is written, and hands it on in pieces of 64 KiB. It counts its failures and tells no
/// content.
#[derive(Drop)]
pub struct StdSink<'r, R: Print> {
    kept: BufWriter<Printer<'r, R>>,
    faults: u64,
}

impl<'r, R: Print> StdSink<'r, R> {
    /// The sink to this output, with room for a piece.
    ///
    /// # Errors
    ///
    /// Want of memory.
    pub fn new(alloc: Global, output: &'r R) -> io::Result<StdSink<'r, R>> {
        let kept = BufWriter::with_capacity(alloc, PIECE, io::writer(output))?;
        Ok(StdSink { kept, faults: 0 })
    }

    /// Hands on what is kept.
    ///
    /// # Errors
    ///
    /// [`Failed`] where a write failed.
    pub fn hand_on(&mut self) -> Result<(), Failed> {
        match self.kept.flush() {
            Ok(()) => Ok(()),
            Err(_) => {
                self.faults = self.faults.saturating_add(1);
                Err(Failed)
            }
        }
    }
}

impl<'r, R: Print> Sink for StdSink<'r, R> {
    ghost use Rattle.std.specs.Prelude.{None};

    ghost held = { λ _. None };

    ghost faults = { λ s. s.faults };

    fn write(&mut self, piece: &[u8]) -> Result<usize, Failed> {
        for _ in 0..TRIES {
            match self.kept.write(piece) {
                Ok(count) if count > 0 || piece.is_empty() => return Ok(count),
                Err(error) if error.kind() == ErrorKind::Interrupted => {}
                _ => break,
            }
        }
        self.faults = self.faults.saturating_add(1);
        Err(Failed)
    }
}
