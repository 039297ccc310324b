//! The outside as traits: where bytes come from, where they go, links, doors, nets and shelves, and how many faults there were.
//!
//! A contract sees of a `Source` the bytes that are left, of a `Sink` those that were taken, of doors and nets the links
//! that are left and those that came back, where the object tells them, and of all a count of faults that never falls. The
//! forms in memory tell all; the adapters over std tell their counts alone.
#![tactic(auto)]

mod adapters;
mod bytes_link;
mod bytes_sink;
mod bytes_source;
mod calm;
mod door;
mod file_shelf;
mod fill;
mod link;
mod list_door;
mod list_net;
mod list_shelf;
mod net;
mod shelf;
mod sink;
mod source;
mod status;
mod tcp;

pub use adapters::{StdSink, StdSource};
pub use bytes_link::BytesLink;
pub use bytes_sink::BytesSink;
pub use bytes_source::BytesSource;
pub use calm::{CalmSink, CalmSource};
pub use door::{Accepted, Door};
pub use file_shelf::FileShelf;
pub use link::Link;
pub use list_door::ListDoor;
pub use list_net::ListNet;
pub use list_shelf::ListShelf;
pub use net::{Dialled, Listening, Net};
pub use shelf::{Fetched, Shelf};
pub use sink::{Put, Sink, Written, write_all};
pub use source::{Got, Source};
pub use status::Status;
pub use tcp::{TcpDoor, TcpLink, TcpNet};
