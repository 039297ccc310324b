//! Texts as lists of characters, and operations on them.
//!
//! A contract sees a `Text` as the list of its characters. It keeps as its invariant that they are
//! Unicode scalar values, and fewer than 2^61.
//!
//! A contract sees an `Op`, and the `OpBuilder` that makes it, as the text put in at the start and
//! the fate of each place of the base (`Change`), which tells normal operations apart and nothing
//! else. Each keeps as its invariant that its parts are the normal list, that the numbers beside
//! them are theirs, and that base and target are at most `MAX_LEN`.
#![tactic(auto)]

mod builder;
mod effect;
mod laws;
mod op;
mod part;
mod parts;
mod text;

pub use builder::OpBuilder;
pub use effect::{ApplyError, apply};
pub use laws::{
    effect_law, equal_images_law, gaps_law, map_law, norm_append_law, norm_law, normal_form_law,
    room_law, same_op_law,
};
pub use op::{MAX_LEN, Op};
pub use part::Part;
pub use text::Text;
