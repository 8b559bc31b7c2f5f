//! A stream of bytes, for tests.
use std::alloc::Global;
use std::io::{self, Read, Write};
use std::test::Fail;

/// A stream that gives some bytes, and takes what is written; one that is broken fails once it has given all, and takes nothing.
#[derive(Drop)]
pub(crate) struct Stream<'a> {
    given: &'a [u8],
    taken: Vec<u8>,
    is_broken: bool,
}

impl<'a> Stream<'a> {
    /// A stream that gives this text.
    pub(crate) fn new(alloc: Global, given: &'a str) -> Stream<'a> {
        Stream {
            given: given.as_bytes(),
            taken: Vec::new(alloc),
            is_broken: false,
        }
    }

    /// The same, broken.
    pub(crate) fn broken(alloc: Global, given: &'a str) -> Stream<'a> {
        let mut stream = Stream::new(alloc, given);
        stream.is_broken = true;
        stream
    }

    /// What was written.
    pub(crate) fn text(self) -> Result<String, Fail> {
        String::from_utf8(self.taken).map_err(|_| Fail::from("text"))
    }
}

impl Read for Stream<'_> {
    fn read(&mut self, buf: &mut [u8]) -> io::Result<usize> {
        if self.is_broken && self.given.is_empty() {
            return Err(io::Error::from(io::ErrorKind::Other));
        }
        self.given.read(buf)
    }
}

impl Write for Stream<'_> {
    fn write(&mut self, buf: &[u8]) -> io::Result<usize> {
        if self.is_broken {
            return Err(io::Error::from(io::ErrorKind::Other));
        }
        self.taken.write(buf)
    }

    fn flush(&mut self) -> io::Result<()> {
        Ok(())
    }
}
