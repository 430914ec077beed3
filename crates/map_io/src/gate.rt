//! The gate between taking a job and solving it.
/// What a worker passes between taking a job and solving it: a test can hold workers there.
pub trait Gate {
    /// Passes the gate, with the worker's number (the editor is 0) and the receiver's place in the job's scene.
    /// It changes nothing that a contract speaks of.
    fn pass(&self, worker: u32, row: u32);
}

/// A gate that holds nobody.
#[derive(Clone, Copy, Debug)]
pub struct OpenGate;

impl Gate for OpenGate {
    fn pass(&self, _worker: u32, _row: u32) {}
}
