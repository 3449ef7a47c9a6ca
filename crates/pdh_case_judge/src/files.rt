//! Files by their names, as a run finds and leaves them.

use std::alloc::{AllocError, Global};
use std::collections::BTreeMap;

/// Files in memory.
#[derive(Drop)]
pub struct Files {
    pub alloc: Global,
    pub held: BTreeMap<String, Vec<u8>>,
}

impl Files {
    /// No file.
    pub fn new(alloc: Global) -> Files {
        Files {
            alloc,
            held: BTreeMap::new(alloc),
        }
    }

    /// The bytes of a file that is held.
    pub fn get(&self, name: &str) -> Option<&[u8]> {
        self.held.get(name).map(|bytes| bytes.as_slice())
    }

    /// Sets a file.
    pub fn set(&mut self, name: &str, bytes: Vec<u8>) -> Result<(), AllocError> {
        self.held
            .insert(String::from_str(self.alloc, name)?, bytes)?;
        Ok(())
    }

    /// Sets a file to bytes that are copied.
    pub fn copy(&mut self, name: &str, bytes: &[u8]) -> Result<(), AllocError> {
        self.set(name, Vec::from_slice(self.alloc, bytes)?)
    }

    /// Takes a file away, where it is held.
    pub fn remove(&mut self, name: &str) {
        let _ = self.held.remove(name);
    }

    /// The same files.
    pub fn duplicate(&self) -> Result<Files, AllocError> {
        let mut files = Files::new(self.alloc);
        for (name, bytes) in self.held.iter() {
            files.copy(name.as_str(), bytes.as_slice())?;
        }
        Ok(files)
    }

    /// How many bytes all files hold.
    pub fn total(&self) -> u64 {
        let mut total = 0u64;
        for bytes in self.held.values() {
            total = total.saturating_add(bytes.len() as u64);
        }
        total
    }
}
