//! Who stands before and after the jobs of workers.

/// Who watches the workers, which are named by their numbers. All of them share it.
pub trait Gate {
    /// The worker took a job, and does it when this returns.
    fn hold(&self, worker: u16);

    /// The worker did its job.
    fn done(&self, worker: u16);
}

/// A gate that holds nobody.
#[derive(Clone, Copy)]
pub struct Open;

impl Gate for Open {
    fn hold(&self, _worker: u16) {}

    fn done(&self, _worker: u16) {}
}
