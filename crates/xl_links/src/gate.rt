/// What is told of each call before it is made and after it was answered, so that a test can hold one call until
/// another was answered. Nothing is known of what it does.
pub trait Gate {
    /// Passes the gate for so many a time.
    fn pass(&self, call: u64);
}

/// The gate that does nothing.
#[derive(Clone, Copy, PartialEq, Eq)]
pub struct OpenGate;

impl Gate for OpenGate {
    fn pass(&self, _call: u64) {}
}
