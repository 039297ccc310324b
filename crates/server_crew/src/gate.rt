//! A gate that sees each read and each write of a link.

/// Is called before each read of a link, and behind each write that took bytes. Links are numbered from 1 in the order in which
/// they were accepted.
pub trait Gate {
    /// Before the read of this number, from 1, of the link of this number.
    fn hold(&self, link: u64, reads: u64);

    /// Behind a write that took so many bytes, on the link of this number.
    fn wrote(&self, link: u64, bytes: u64);
}

/// The gate that does nothing.
#[derive(Clone, Copy, Debug)]
pub struct NoGate;

impl Gate for NoGate {
    fn hold(&self, _link: u64, _reads: u64) {}

    fn wrote(&self, _link: u64, _bytes: u64) {}
}
