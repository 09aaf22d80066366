//! Readers and writers that give and take little.

use std::io;
use std::io::{Read, Write};

/// Gives at most so many bytes at a time.
#[derive(Debug, Drop)]
pub(crate) struct Pieces<'a> {
    pub(crate) most: usize,
    pub(crate) left: &'a [u8],
}

impl Read for Pieces<'_> {
    fn read(&mut self, buffer: &mut [u8]) -> io::Result<usize> {
        let count = self.most.min(buffer.len()).min(self.left.len());
        buffer[..count].copy_from_slice(&self.left[..count]);
        self.left = &self.left[count..];
        Ok(count)
    }
}

/// Takes at most so many bytes at a time.
#[derive(Debug, Drop)]
pub(crate) struct SlowWriter {
    pub(crate) most: usize,
    pub(crate) written: Vec<u8>,
}

impl Write for SlowWriter {
    fn write(&mut self, bytes: &[u8]) -> io::Result<usize> {
        let count = self.most.min(bytes.len());
        self.written.extend_from_slice(&bytes[..count])?;
        Ok(count)
    }

    fn flush(&mut self) -> io::Result<()> {
        Ok(())
    }
}
