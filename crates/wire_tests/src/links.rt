//! Links, doors, nets and shelves: each call once, and what the adapters hand on.
ghost use Rattle.std.specs.Prelude.{◌≡◌, false, All, IfOk};

use std::alloc::{AllocError, Global};
use std::fs;
use std::test::Fail;
use troop_ports::*;

/// A link in memory that gives these bytes, and fails at its second read.
fn stumbling(alloc: Global, bytes: &[u8]) -> Result<BytesLink, Fail>
    ensures { IfOk result (λ link. link.is_closed ≡ false) }
{
    Ok(BytesLink::new(alloc, bytes, &[1], &[2], 4, &[])?)
}

// What two reads of a byte answer.
fn two_reads(link: &mut BytesLink) -> [Got; 2]
    requires { link.old.is_closed ≡ false }
    ensures { link.new.is_closed ≡ false }
{
    let mut buf = [0; 1];
    [link.read(&mut buf), link.read(&mut buf)]
}

// Writes, reads, and writes all.
fn write_between_reads(link: &mut BytesLink) -> (Put, [Got; 2], Written)
    requires { link.old.is_closed ≡ false }
    ensures { link.new.is_closed ≡ false }
{
    let put = link.write(b"xyz");
    let got = two_reads(link);
    (put, got, write_all(link, b"zz"))
}

// Reads to the end, and closes.
fn read_and_close(link: &mut BytesLink) -> [Got; 2]
    requires { link.old.is_closed ≡ false }
{
    let got = two_reads(link);
    link.close();
    got
}

// Whether it fails at its second read and its second write, and takes four bytes.
fn counts_apart(link: &mut BytesLink) -> bool
    requires { link.old.is_closed ≡ false }
{
    let first = write_between_reads(link);
    let last = read_and_close(link);
    first == (Put::Took(3), [Got::Bytes(1), Got::Failed], Written::Part(1))
        && last == [Got::Bytes(1), Got::End]
        && link.written() == b"xyzz".as_slice()
}

#[test]
fn a_link_in_memory_counts_reads_and_writes_by_themselves(rt: HostRuntime) -> Result<(), Fail> {
    let mut link = stumbling(rt.alloc(), b"ab")?;
    assert!(rt; counts_apart(&mut link));
    Ok(())
}

// Dials the address, and hands the link back. Whether there was one.
fn dial_once<N: Net>(net: &mut N, addr: &str) -> bool {
    match net.dial(addr) {
        Dialled::Link(link) => {
            net.retire(link);
            true
        }
        Dialled::Failed => false,
    }
}

// Listens, and hands the door back. Whether there was one.
fn listen_once<N: Net>(net: &mut N) -> bool {
    match net.listen("a") {
        Listening::Door(door) => {
            net.shut(door);
            true
        }
        Listening::Failed => false,
    }
}

// Accepts, and hands the link back. Whether there was one, unless the door failed.
fn accept_once<D: Door>(door: &mut D) -> Option<bool> {
    match door.accept() {
        Accepted::Link(link) => {
            door.retire(link);
            Some(true)
        }
        Accepted::Closed => Some(false),
        Accepted::Failed => None,
    }
}

// One link in memory, as a list.
fn one_link(alloc: Global) -> Result<Vec<BytesLink>, Fail>
    ensures { IfOk result (λ links. All (λ link. link.is_closed ≡ false) links.items) }
{
    let mut links = Vec::new(alloc);
    links.push(stumbling(alloc, b"in")?)?;
    Ok(links)
}

// A door in memory that fails once, and then has one link.
fn new_door(alloc: Global) -> Result<ListDoor<BytesLink>, Fail> {
    Ok(ListDoor::new(alloc, one_link(alloc)?, &[1])?)
}

// What accepts answer until the door is closed, and how many links it has back.
fn accepted(door: &mut ListDoor<BytesLink>) -> ([Option<bool>; 3], usize) {
    let answers = [accept_once(door), accept_once(door), accept_once(door)];
    (answers, door.retired().len())
}

// A net in memory that fails once, and then has one link and these doors.
fn new_net(
    alloc: Global,
    doors: Vec<ListDoor<BytesLink>>,
) -> Result<ListNet<ListDoor<BytesLink>, BytesLink>, Fail> {
    Ok(ListNet::new(alloc, doors, one_link(alloc)?, &[1])?)
}

// A net in memory that stands at an address, fails once, and then has one link and this door.
fn net_of(
    alloc: Global,
    door: ListDoor<BytesLink>,
) -> Result<ListNet<ListDoor<BytesLink>, BytesLink>, Fail> {
    let net = new_net(alloc, Vec::from_array(alloc, [door])?)?;
    Ok(net.standing_at(String::from_str(alloc, "a")?))
}

// Whether each of four dials gave a link, and each of two listens a door.
fn dialled_and_listened<N: Net>(net: &mut N) -> ([bool; 4], [bool; 2]) {
    let dialled = [
        dial_once(net, "a"),
        dial_once(net, "b"),
        dial_once(net, "a"),
        dial_once(net, "a"),
    ];
    (dialled, [listen_once(net), listen_once(net)])
}

// How many links and doors it has back.
fn handed_back(net: &ListNet<ListDoor<BytesLink>, BytesLink>) -> (usize, usize) {
    (net.retired().len(), net.shut_doors().len())
}

#[test]
fn a_door_in_memory_gives_links_and_takes_them_back(rt: HostRuntime) -> Result<(), Fail> {
    let answers = accepted(&mut new_door(rt.alloc())?);
    assert_eq!(rt; answers, ([None, Some(true), Some(false)], 1));
    Ok(())
}

#[test]
fn a_net_in_memory_gives_doors_and_links_and_takes_them_back(rt: HostRuntime) -> Result<(), Fail> {
    let mut net = net_of(rt.alloc(), new_door(rt.alloc())?)?;
    let answers = (dialled_and_listened(&mut net), handed_back(&net));
    let wanted = (([false, false, true, false], [true, false]), (1, 1));
    assert_eq!(rt; answers, wanted);
    Ok(())
}

const BOOT: &[u8] = b":set x";

// What a shelf answers about a file.
fn fetched<S: Shelf>(
    alloc: Global,
    shelf: &mut S,
    name: &str,
    limit: u64,
) -> Result<Fetched, AllocError> {
    shelf.fetch(alloc, name, limit)
}

// Whether a file is there within the limit, with the bytes of the boot file.
fn gives_boot<S: Shelf>(
    alloc: Global,
    shelf: &mut S,
    name: &str,
    limit: u64,
) -> Result<bool, AllocError> {
    match fetched(alloc, shelf, name, limit)? {
        Fetched::Bytes(bytes) => Ok(bytes.as_slice() == BOOT),
        _ => Ok(false),
    }
}

/// Looks for a file of six bytes by limits of 6 and 5, and for one that isn't there.
fn holds_boot_file<S: Shelf>(alloc: Global, shelf: &mut S, name: &str) -> Result<bool, AllocError> {
    Ok(
        gives_boot(alloc, shelf, name, 6)?
            && fetched(alloc, shelf, name, 5)? == Fetched::TooMany
            && fetched(alloc, shelf, "no such file", 6)? == Fetched::Failed,
    )
}

// A shelf in memory with the boot file, which fails at its fourth fetch.
fn boot_shelf(alloc: Global) -> Result<ListShelf, Fail> {
    let name = String::from_str(alloc, "boot")?;
    let boot = Vec::from_slice(alloc, BOOT)?;
    let files = Vec::from_array(alloc, [(name, boot)])?;
    Ok(ListShelf::new(alloc, files, &[4])?)
}

// Whether the shelf holds the boot file, and then fails.
fn holds_until_it_fails(alloc: Global, shelf: &mut ListShelf) -> Result<bool, AllocError> {
    let is_held = holds_boot_file(alloc, shelf, "boot")?;
    Ok(is_held && fetched(alloc, shelf, "boot", 6)? == Fetched::Failed)
}

#[test]
fn a_shelf_gives_what_stands_under_a_name(rt: HostRuntime) -> Result<(), Fail> {
    let is_so = holds_until_it_fails(rt.alloc(), &mut boot_shelf(rt.alloc())?)?;
    assert!(rt; is_so);
    Ok(())
}

// A path that no other run of the tests has.
fn boot_path(rt: &HostRuntime) -> Result<String, Fail> {
    let folder = std::env::temp_dir(rt)?;
    let run = std::process::id(rt.process());
    Ok(format!(in rt.alloc(); "{}/troop_shelf_{}", folder.as_str(), run)?)
}

// Whether a shelf of files holds the boot file while it stands at the path.
fn holds_file(rt: &HostRuntime, path: &str) -> Result<bool, Fail> {
    fs::write(rt, path, BOOT)?;
    let is_held = holds_boot_file(rt.alloc(), &mut FileShelf::new(rt), path)?;
    fs::remove_file(rt, path)?;
    Ok(is_held)
}

#[test]
fn a_shelf_of_files_gives_what_stands_under_a_path(rt: HostRuntime) -> Result<(), Fail> {
    let is_held = holds_file(&rt, boot_path(&rt)?.as_str())?;
    assert!(rt; is_held);
    Ok(())
}

/// Reads a piece, and says whether it is this one.
fn gives<L: Link>(link: &mut L, want: &[u8]) -> bool
    requires { L.Source.closed link.old ≡ false }
    ensures { L.Source.closed link.new ≡ false }
{
    let mut buf = [0; 8];
    match link.read(&mut buf) {
        Got::Bytes(count) => &buf[..count] == want,
        Got::End => want.is_empty(),
        Got::Failed => false,
    }
}

// Writes the piece at one end: whether it comes out at the other.
fn carries(from: &mut TcpLink, to: &mut TcpLink, piece: &[u8]) -> bool
    requires from { ⟦<TcpLink as Source>⟧.closed from.old ≡ false }
    requires to { ⟦<TcpLink as Source>⟧.closed to.old ≡ false }
    ensures from { ⟦<TcpLink as Source>⟧.closed from.new ≡ false }
    ensures to { ⟦<TcpLink as Source>⟧.closed to.new ≡ false }
{
    write_all(from, piece) == Written::All && gives(to, piece)
}

// Carries bytes both ways, and closes the far end. Whether all came.
fn carries_both_ways(near: &mut TcpLink, far: &mut TcpLink) -> bool
    requires near { ⟦<TcpLink as Source>⟧.closed near.old ≡ false }
    requires far { ⟦<TcpLink as Source>⟧.closed far.old ≡ false }
    ensures { ⟦<TcpLink as Source>⟧.closed near.new ≡ false }
{
    let is_carried = carries(near, far, b"to") && carries(far, near, b"fro");
    far.close();
    is_carried
}

// Accepts the far end, carries bytes both ways and retires it. Whether all came, and then the end.
fn meets(door: &mut TcpDoor, near: &mut TcpLink) -> bool
    requires { ⟦<TcpLink as Source>⟧.closed near.old ≡ false }
{
    match door.accept() {
        Accepted::Link(mut far) => {
            let is_carried = carries_both_ways(near, &mut far);
            door.retire(far);
            is_carried && gives(near, b"")
        }
        _ => false,
    }
}

// Dials the door, and hands the link back. Whether bytes came both ways, and then the end.
fn dials<N: Net<L = TcpLink>>(net: &mut N, door: &mut TcpDoor, addr: &str) -> bool
    ensures { N.door_places net.new ≡ N.door_places net.old }
{
    match net.dial(addr) {
        Dialled::Link(mut near) => {
            let is_met = meets(door, &mut near);
            net.retire(near);
            is_met
        }
        Dialled::Failed => false,
    }
}

// Whether bytes come both ways over a door while it is open, and whether it can be dialled once it is shut.
fn open_and_shut<N: Net<L = TcpLink, D = TcpDoor>>(
    alloc: Global,
    net: &mut N,
) -> Result<(bool, bool), Fail> {
    let Listening::Door(mut door) = net.listen("127.0.0.1:0") else {
        return Err(Fail::new("no door"));
    };
    let addr = format!(in alloc; "{}", door.local_addr()?)?;
    let is_dialled = dials(net, &mut door, addr.as_str());
    net.shut(door);
    Ok((is_dialled, dial_once(net, addr.as_str())))
}

#[test]
fn tcp_carries_bytes_both_ways_and_tells_the_end(rt: HostRuntime) -> Result<(), Fail> {
    let answers = open_and_shut(rt.alloc(), &mut TcpNet::new(&rt))?;
    assert_eq!(rt; answers, (true, false));
    Ok(())
}
