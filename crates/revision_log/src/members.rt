//! Who has left.
ghost use Rattle.std.specs.Prelude.{◌≡◌, ◌≤◌, ◌+◌, true, vec_len, vec_capacity};
ghost use Rattle.troop_entry.specs.Kinds.{is_join, is_leave};
ghost use Rattle.revision_log.specs.DeskInvariant.{has_stayed, departed_after};

use troop_entry::Call;

/// Whether the performer of this number has joined and not left.
pub fn has_stayed(departed: &[bool], who: u32) -> bool
    ensures { result ≡ has_stayed departed.now who }
{
    if who == 0 {
        return false;
    }
    match departed.get(who as usize - 1) {
        Some(has_left) => !*has_left,
        None => false,
    }
}

/// Follows a placed call: the performer of a join is there, and that of a leave has left.
pub fn follow(departed: &mut Vec<bool>, who: u32, call: &Call)
    requires room { is_join call.now ≡ true → vec_len departed.old + 1 ≤ vec_capacity departed.old }
    requires there { is_leave call.now ≡ true → has_stayed departed.old.items who ≡ true }
    ensures { departed.new.items ≡ departed_after who call.now departed.old.items }
{
    match call {
        Call::Join { .. } => departed.push_reserved(false),
        Call::Leave => departed[who as usize - 1] = true,
        Call::Edit { .. } | Call::Eval { .. } | Call::Reset { .. } => {}
    }
}
