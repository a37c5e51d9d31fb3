//! What hears of a run of `ask`, besides the writer of its replies.

/// What hears of the exchanges of a run. No clause speaks of what it does with them.
pub trait Hearer {
    /// A request was sent, and its reply printed.
    fn heard(&mut self, request: &[u8], reply: &[u8]);
}

/// Hears nothing.
#[derive(Drop)]
pub struct Deaf;

impl Hearer for Deaf {
    fn heard(&mut self, _request: &[u8], _reply: &[u8]) {}
}
