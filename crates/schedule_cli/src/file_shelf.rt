use sched_base::{Failed, Shelf};
use std::fs;
use std::io::{ErrorKind, Read};
use std::rt::Files;

/// A read that a signal interrupts is tried so often.
const TRIES: u32 = 1_000_000;

/// The files of the system, by their paths. It counts its failures and tells no content.
#[derive(Drop)]
pub struct FileShelf<'r, R: Files> {
    files: &'r R,
    hand: Option<R::File>,
    faults: u64,
}

impl<'r, R: Files> FileShelf<'r, R> {
    /// The shelf with no file in hand.
    pub fn new(files: &'r R) -> Self {
        FileShelf {
            files,
            hand: None,
            faults: 0,
        }
    }
}

impl<'r, R: Files> Shelf for FileShelf<'r, R> {
    ghost use Rattle.std.specs.Prelude.{None, []};

    ghost texts = { λ _. None };

    ghost left = { λ _. [] };

    ghost faults = { λ s. s.faults };

    fn begin(&mut self, name: &str) -> Result<(), Failed> {
        self.hand = None;
        match fs::open(self.files, name) {
            Ok(file) => {
                self.hand = Some(file);
                Ok(())
            }
            Err(_) => {
                self.faults = self.faults.saturating_add(1);
                Err(Failed)
            }
        }
    }

    fn read(&mut self, piece: &mut [u8]) -> Result<usize, Failed> {
        let Some(file) = &mut self.hand else {
            return Ok(0);
        };
        for _ in 0..TRIES {
            match file.read(piece) {
                Ok(count) => return Ok(count),
                Err(error) if error.kind() == ErrorKind::Interrupted => {}
                Err(_) => break,
            }
        }
        self.faults = self.faults.saturating_add(1);
        Err(Failed)
    }
}
