//! What a call is given, and how it ends.
use crate::stream::Stream;
use commands::Status;
use std::process::Abort;
use std::test::Fail;

/// What is read, what is printed and said for it, and the number that a process exits with.
pub(crate) struct Row {
    pub(crate) read: &'static str,
    pub(crate) printed: &'static str,
    pub(crate) said: &'static str,
    pub(crate) code: u8,
}

/// What a call printed and said, and the number that a process exits with.
#[derive(Drop)]
pub(crate) struct Ended {
    pub(crate) printed: String,
    pub(crate) said: String,
    pub(crate) code: u8,
}

impl Ended {
    /// A call ended with this status, and wrote to these streams.
    pub(crate) fn with(
        status: Status,
        printed: Stream<'_>,
        said: Stream<'_>,
    ) -> Result<Ended, Fail> {
        Ok(Ended {
            printed: printed.text()?,
            said: said.text()?,
            code: status.code(),
        })
    }

    /// What was said, and the number.
    pub(crate) fn why(&self) -> (&str, u8) {
        (self.said.as_str(), self.code)
    }
}

/// That a call ended as the row has it.
pub(crate) fn assert_ends(rt: &impl Abort, row: &Row, ended: &Ended) {
    assert_eq!(rt; ended.printed.as_str(), row.printed);
    assert_eq!(rt; ended.why(), (row.said, row.code));
}
