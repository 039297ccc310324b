//! Laws of transformation, chains and composition: each is the contract of an empty function.
ghost use Rattle.std.specs.Prelude.{◌≡◌, ◌↔◌, ◌++◌, List, ℕ, Some, IsTrue, length, map};
ghost use Rattle.ot_text.specs.Change.{Change, Old, New, base, target, inserted, effect, item_element, image, ins, keeps_place};
ghost use Rattle.ot_transform.specs.Chain.{through, IsChain, chain_end};
ghost use Rattle.ot_transform.specs.Composition.{comp};
ghost use Rattle.ot_transform.specs.Merge.{each_from, each_gap, merge};
ghost use Rattle.ot_transform.specs.Transform.{left, right, gap_place, image_at, ins_places, kept_place, left_image, right_image};

/// Whichever of two operations comes first, the other one moved through it makes the merge of both.
pub fn merge_law<X>()
    ensures left { (new_a new_b : ℕ → X) (a b : Change) (m : List X)
        → base a ≡ length m → base b ≡ length m
        → effect new_a (left a b) (effect new_b b m) ≡ merge new_a a new_b b m }
    ensures right { (new_a new_b : ℕ → X) (a b : Change) (m : List X)
        → base a ≡ length m → base b ≡ length m
        → effect new_b (right b a) (effect new_a a m) ≡ merge new_a a new_b b m }
{}

/// The composition has the effect of the first operation, then the second.
pub fn composition_law<X>()
    ensures { (new : ℕ → X) (a b : Change) (m : List X) → target a ≡ base b → base a ≡ length m
        → effect new (comp a b) m ≡ effect new b (effect new a m) }
{}

/// An operation, and behind it another moved through it, are one operation both ways round.
pub fn diamond_law()
    ensures { (a b : Change) → base a ≡ base b → comp a (right b a) ≡ comp b (left a b) }
{}

/// An operation moved through another has the other's target as its base, and its image gap by gap.
pub fn transform_gaps_law()
    ensures left_base { (a b : Change) → base a ≡ base b → base (left a b) ≡ target b }
    ensures left_image { (a b : Change) → base a ≡ base b → image (left a b) ≡ left_image a b }
    ensures right_base { (a b : Change) → base a ≡ base b → base (right b a) ≡ target a }
    ensures right_image { (a b : Change) → base a ≡ base b → image (right b a) ≡ right_image b a }
{}

/// An operation's image, gap by gap; and the places that `gap_place`, `ins_places` and `kept_place` name in it.
pub fn places_law()
    ensures image { (c : Change) → image c ≡ each_gap (image_at c) (base c) }
    ensures gap_place { (c : Change) (i : ℕ) → gap_place c i ≡ length (each_from (image_at c) 0 i) }
    ensures ins_places { (c : Change) (i : ℕ)
        → map (item_element New (image c)) (ins_places c i) ≡ map Some (map New (ins c i)) }
    ensures kept_place { (c : Change) (i : ℕ) → IsTrue (keeps_place c i)
        → item_element New (image c) (kept_place c i) ≡ Some (Old i) }
{}

/// The composition has the first one's base, and the second one's image with each place replaced by
/// what the first one's image has there.
pub fn composed_image_law()
    ensures base { (a b : Change) → target a ≡ base b → base (comp a b) ≡ base a }
    ensures image { (a b : Change) → target a ≡ base b
        → map Some (image (comp a b)) ≡ map (item_element New (image a)) (image b) }
{}

/// Two chains one behind the other, the second on the text that the first leads to, are one chain and are moved through as
/// one. An operation moved through a chain puts in as many characters as before, and applies to the text that the chain leads to.
pub fn chain_law()
    ensures append { (a : Change) (bs cs : List Change)
        → through a (bs ++ cs) ≡ through (through a bs) cs }
    ensures inserted { (a : Change) (bs : List Change) → IsChain (base a) bs
        → inserted (through a bs) ≡ inserted a }
    ensures base { (a : Change) (bs : List Change) → IsChain (base a) bs
        → base (through a bs) ≡ chain_end (base a) bs }
    ensures two_chains { (n : ℕ) (bs cs : List Change)
        → IsChain n (bs ++ cs) ↔ (IsChain n bs × IsChain (chain_end n bs) cs) }
    ensures two_ends { (n : ℕ) (bs cs : List Change)
        → chain_end n (bs ++ cs) ≡ chain_end (chain_end n bs) cs }
{}

/// A moved operation puts in as many characters as before, both ways round the text has one length,
/// and composed operations make a text as long as the second one does.
pub fn lengths_law()
    ensures inserted_left { (a b : Change) → base a ≡ base b → inserted (left a b) ≡ inserted a }
    ensures inserted_right { (a b : Change) → base a ≡ base b → inserted (right b a) ≡ inserted b }
    ensures both { (a b : Change) → base a ≡ base b → target (left a b) ≡ target (right b a) }
    ensures composed { (a b : Change) → target a ≡ base b → target (comp a b) ≡ target b }
{}
