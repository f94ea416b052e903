//! A source in a file.
ghost use Rattle.std.specs.Prelude.{◌≡◌};
ghost use Rattle.flash_store.specs.Files.{stored_device};

use crate::storage::Storage;
use crate::transfer::read_whole;
use flash_device::{Counter, Source, SourceFault};
use std::marker::Model;

/// A source in a file, honest exactly if the file is faithful.
#[derive(Drop)]
pub struct StoredSource<S: Storage> {
    storage: S,
    calls: Counter,
    faults: Counter,
}

impl<S: Storage> Model for StoredSource<S> {
    ghost use Rattle.flash_device.specs.Device.{Device};
    ghost use Rattle.flash_store.specs.Files.{stored_device};

    ghost Value = { Device };

    ghost view = { λ f. stored_device (S.facts f.storage) f.calls f.faults };
}

impl<S: Storage> StoredSource<S> {
    /// Returns a source in this file, without calls.
    pub fn new(storage: S) -> StoredSource<S>
        ensures { result ≡ stored_device (S.facts storage) 0 0 }
    {
        StoredSource {
            storage,
            calls: Counter::new(),
            faults: Counter::new(),
        }
    }
}

impl<S: Storage> Source for StoredSource<S> {
    ghost facts = { λ f. f };

    fn len(&self) -> u64 {
        self.storage.len()
    }

    fn read_at(&mut self, at: u64, out: &mut [u8]) -> Result<(), SourceFault> {
        self.calls.tick();
        match read_whole(&mut self.storage, at, out) {
            Ok(()) => Ok(()),
            Err(_) => {
                self.faults.tick();
                Err(SourceFault)
            }
        }
    }
}
