//! Why a server ended in another way.

/// Why a server ended in another way than was asked for.
#[derive(Clone, Copy, Debug, PartialEq, Eq)]
pub enum ServeError {
    /// The door counted a fault. The links that were accepted before are served, and came back.
    DoorFault,
    /// Memory was wanting: to begin with, or to keep a link until it could be handed back.
    Memory,
}
