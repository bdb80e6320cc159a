// Where a thread stands before each of its memory steps.

/// Is passed by a thread before each of its memory steps. Tests hold threads there; a gate means nothing to what a thread
/// does.
pub trait Gate: Sync {
    /// The thread is about to take its memory step with this number, from 1.
    fn pass(&self, thread: u8, step: u32);
}

/// Holds nobody.
#[derive(Clone, Copy, Debug)]
pub struct OpenGate;

impl Gate for OpenGate {
    #[inline(always)]
    fn pass(&self, _thread: u8, _step: u32) {}
}
