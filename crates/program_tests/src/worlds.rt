//! What a world tells of its steps.
use std::alloc::Global;
use std::process::Abort;
use std::test::Fail;
use troop_entry::Reply;
use wire_json::{Read, read_step};
use world_core::{Performer, Told, World};

/// Steps of one performer and one guest, and what each is told.
const STEPS: [(&str, Told); 21] = [
    (r#"["join","ann","lines","go\n"]"#, Told::Done),
    (r#"["again",1]"#, Told::Unfit),
    (r#"["take",1]"#, Told::Done),
    (r#"["take",1]"#, Told::Unfit),
    (r#"["edit",1,["hi"]]"#, Told::Done),
    (r#"["edit",1,[5]]"#, Told::Base { want: 5, got: 2 }),
    (r#"["eval",1,9]"#, Told::Blank { place: 9 }),
    (r#"["eval",1,0]"#, Told::Done),
    (r#"["guest","bo","lines"]"#, Told::Done),
    (r#"["call",2,{"call":"leave"}]"#, Told::Done),
    (
        r#"["call",2,{"call":"leave"}]"#,
        Told::Refused(Reply::NotMember { who: 2 }),
    ),
    (r#"["call",1,{"call":"leave"}]"#, Told::Unfit),
    (r#"["serve",1]"#, Told::Done),
    (r#"["serve",1]"#, Told::Done),
    (r#"["feed",1]"#, Told::Unfit),
    (r#"["take",1]"#, Told::Done),
    (r#"["take",1]"#, Told::Done),
    (r#"["take",1]"#, Told::Done),
    (r#"["take",1]"#, Told::Done),
    (r#"["serve",3]"#, Told::Unfit),
    (r#"["show"]"#, Told::Show),
];

// What the world tells of the step of this line.
fn told_of(alloc: Global, world: &mut World, line: &str) -> Result<Told, Fail> {
    let Read::Value(step) = read_step(alloc, line.as_bytes()) else {
        return Err("a step".into());
    };
    Ok(world.step(&step)?)
}

fn take_steps(rt: &impl Abort, alloc: Global, world: &mut World) -> Result<(), Fail> {
    for (line, told) in &STEPS {
        assert_eq!(rt; told_of(alloc, world, line)?, *told);
    }
    Ok(())
}

// Whether the performer is Ann, who has taken five entries, and the block of the last one waits.
fn is_ann(ann: &Performer) -> bool {
    ann.who == 1
        && ann.stage.taken() == 5
        && ann.waiting.len() == 1
        && !ann.waiting.is_empty()
        && ann.waiting.first().map(|block| block.place) == Some(4)
}

// Whether Ann is the one performer.
fn has_ann(world: &World) -> bool {
    match world.performers() {
        [ann] => is_ann(ann),
        _ => false,
    }
}

#[test]
fn world_tells_what_a_step_did(rt: HostRuntime) -> Result<(), Fail> {
    let mut world = World::new(rt.alloc());
    take_steps(&rt, rt.alloc(), &mut world)?;
    assert_eq!(rt; world.desk().length(), 5);
    assert!(rt; has_ann(&world));
    Ok(())
}
