//! What is read off the desk while it is lent.
ghost use Rattle.std.specs.Prelude.{◌≡◌, ◌<◌, ◌^◌, length, drop, option_map, Option, Some, None, IfOk, OnErr, ℕ};
ghost use Rattle.std.specs.List.{position_from};
ghost use Rattle.log_model.specs.Log.{entries, has_join, is_join_by, is_leave_by};
ghost use Rattle.troop_hall.specs.Knowledge.{join_at, known_at};

use revision_log::Desk;
use std::alloc::AllocError;
use troop_entry::{Entry, Row};

/// What a log knows of a performer.
#[derive(Clone, Copy, Debug, PartialEq, Eq)]
pub struct Known {
    /// Whether it has joined.
    pub joined: bool,
    /// The position of its leave.
    pub left: Option<u64>,
    /// How many rows the log has.
    pub length: u64,
}

/// The entries of the desk from this position on.
pub(crate) fn entries_from(desk: &Desk, start: u64) -> Result<Vec<Entry>, AllocError>
    ensures entries { IfOk result (λ found. found.items ≡ drop start (entries desk.now)) }
    ensures wanting { OnErr result (start < length desk.now) }
    ensures fits { length desk.now < 2 ^ 64 }
{
    let end = desk.length();
    desk.entries(start.min(end), end)
}

/// What the desk knows of this performer.
pub(crate) fn known_of(desk: &Desk, who: u32) -> Known
    ensures { result ≡ known_at desk.now who }
{
    let rows = desk.rows();
    Known {
        joined: has_join(rows, who),
        left: position_of_leave(rows, who),
        length: rows.len() as u64,
    }
}

/// The position of this performer's join.
pub(crate) fn join_in(desk: &Desk, who: u32) -> Option<u64>
    ensures join { result ≡ join_at desk.now who }
    ensures fits { length desk.now < 2 ^ 64 }
{
    let index = index_of_join(desk.rows(), who)?;
    Some(index as u64)
}

// The same, as an index.
fn index_of_join(rows: &[Row], who: u32) -> Option<usize>
    ensures { result ≡ position_from (is_join_by who) 0 rows.now }
{
    rows.iter()
        .position(|row| row.call.is_join() && row.who == who)
}

// Whether this performer has joined.
fn has_join(rows: &[Row], who: u32) -> bool
    ensures { result ≡ has_join rows.now who }
{
    rows.iter().any(|row| row.call.is_join() && row.who == who)
}

// The position of this performer's leave.
fn position_of_leave(rows: &[Row], who: u32) -> Option<u64>
    ensures { result ≡ position_from (is_leave_by who) 0 rows.now }
{
    let index = index_of_leave(rows, who)?;
    Some(index as u64)
}

// The same, as an index.
fn index_of_leave(rows: &[Row], who: u32) -> Option<usize>
    ensures { result ≡ position_from (is_leave_by who) 0 rows.now }
{
    rows.iter()
        .position(|row| row.call.is_leave() && row.who == who)
}
