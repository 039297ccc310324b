//! What opens an up line.
use ot_text::Text;
use troop_entry::Lang;

/// What opens an up line.
#[derive(Debug, Drop)]
pub enum Opening {
    /// A performer of this name joins, and leaves at the session's end, however that comes.
    Join { name: Text, lang: Lang },
    /// A performer of this name joins, and stays where its link is lost.
    Stay { name: Text, lang: Lang },
    /// The performer of this number goes on.
    Back { who: u32 },
}
