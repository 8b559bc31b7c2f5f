//! What goes into the machine.

use crate::bytes::Bytes;

/// One atomic step of the machine. Moments are in milliseconds; the room works with the greatest that it was handed.
#[derive(Drop)]
pub enum Event {
    /// At this moment a datagram of these bytes came from the endpoint of this number.
    Hear(u64, u16, Bytes),
    /// It is this moment.
    Tick(u64),
    /// From this moment on the leg of this number is selected, or not.
    Select(u64, u16, bool),
    /// The ingress does the next that waits for it: one notification, or one task.
    Ingress,
    /// The worker of this number takes a job off its ring, does the job in its hand, or sends a notification.
    Work(u16),
}
