//! The first steps of a generated script.
use draws::{Draws, edit_law};
use drill_run::{drain_law, script_line};
use ot_text::Text;
use std::test::Fail;
use troop_entry::Lang;
use wire_json::Step;
use world_core::World;

#[test]
fn the_first_step_is_a_join_and_draws_nothing(rt: HostRuntime) -> Result<(), Fail> {
    let world = World::new(rt.alloc());
    let mut draws = Draws::new(1);
    let step = script_line(rt.alloc(), &world, &mut draws)?;
    let Step::Join { name, lang, boot } = &step else {
        return Err("a join".into());
    };
    assert!(rt; name.same(&Text::of(rt.alloc(), "p1")?));
    assert!(rt; boot.same(&Text::of(rt.alloc(), "boot\n")?));
    assert!(rt; *lang == Lang::Ghci);
    assert!(rt; draws.below(13) == 3);
    Ok(())
}

#[test]
fn the_first_draw_below_13_of_seed_1_is_3(rt: HostRuntime) {
    let mut draws = Draws::new(1);
    assert!(rt; draws.below(13) == 3);
    // The number held is then 7806831264735756412.
    let mut again = Draws::new(7_806_831_264_735_756_412);
    assert!(rt; draws.below(1_000_000) == again.below(1_000_000));
}

#[test]
fn the_law_of_draining_is_called(_rt: HostRuntime) {
    drain_law();
}

#[test]
fn the_law_of_drawn_edits_is_called(_rt: HostRuntime) {
    edit_law();
}
