//! A queue of links that one thread puts in and takes out.
use link_queue::{LinkQueue, Numbered};
use std::test::Fail;
use troop_ports::BytesLink;

#[test]
fn a_queue_is_emptied(rt: HostRuntime) -> Result<(), Fail> {
    let alloc = rt.alloc();
    let (queue, mut first) = LinkQueue::new(alloc, 2)?;
    let mut second = queue.another(&mut first);
    let link = BytesLink::new(alloc, b"", &[], &[], 1, &[])?;
    queue.put(&rt, &mut second, Some(Numbered { number: 1, link }));
    queue.absorb(&mut first, second);
    let taken = match queue.take_left(&rt, &mut first) {
        Some(numbered) => numbered.number,
        None => 0,
    };
    let is_empty = queue.take_left(&rt, &mut first).is_none();
    assert!(rt; taken == 1 && is_empty);
    Ok(())
}
