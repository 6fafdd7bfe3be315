//! Sets of sockets: places, waits, and how sockets are found.
// Each test also holds where any one request for memory is refused.
use ip_wire::{IpAddress, IpProtocol, IpVersion, Ipv4Address};
use net_base::time::Instant;
use socket_set::{AddError, SocketHandle, SocketSet, SocketStorage, by_index};
use sockets::queue::{NoMemory, Queue};
use sockets::socket::{AnySocket, SocketOf};
use sockets::{IpEndpoint, IpListenEndpoint, PollAt, raw, tcp, udp};
use std::alloc::Global;
use std::fmt::Display;
use std::ops::Range;

// 10.0.0.1 and 10.0.0.2.
const FIRST: IpAddress = IpAddress::Ipv4(Ipv4Address { bits: 0x0a00_0001 });

const SECOND: IpAddress = IpAddress::Ipv4(Ipv4Address { bits: 0x0a00_0002 });

// An empty queue of one packet and eight octets. If its room is refused, the next call gets it.
fn queue<M: Drop>(alloc: Global) -> Result<Queue<M>, NoMemory> {
    match Queue::new(alloc, 1, 8) {
        Ok(queue) => Ok(queue),
        Err(NoMemory) => Queue::new(alloc, 1, 8),
    }
}

// Two such queues.
fn queues<M: Drop>(alloc: Global) -> Result<(Queue<M>, Queue<M>), NoMemory> {
    let rx = queue(alloc)?;
    let tx = queue(alloc)?;
    Ok((rx, tx))
}

fn udp_socket<'a>(alloc: Global, port: u16) -> Result<udp::Socket<'a>, NoMemory> {
    let endpoint = IpListenEndpoint { addr: None, port };
    let (rx, tx) = queues(alloc)?;
    Ok(udp::SocketOf::new(endpoint, rx, tx))
}

// Adds a socket, and gives its handle. If the memory for its place is refused, the next call adds
// it.
fn add<'a, T: AnySocket<'a>>(set: &mut SocketSet<'a>, socket: T) -> Option<SocketHandle> {
    match set.add(socket) {
        Ok(handle) => Some(handle),
        Err(AddError::Full(_socket)) => None,
        Err(AddError::NoMemory(socket)) => match set.add(socket) {
            Ok(handle) => Some(handle),
            Err(_error) => None,
        },
    }
}

// Adds a UDP socket at a port, and gives its handle.
fn add_udp<'a>(set: &mut SocketSet<'a>, alloc: Global, port: u16) -> Option<SocketHandle> {
    match udp_socket(alloc, port) {
        Ok(socket) => add(set, socket),
        Err(NoMemory) => None,
    }
}

// A set of UDP sockets at these ports, in this order.
fn udp_set<'a>(alloc: Global, ports: Range<u16>) -> SocketSet<'a> {
    let mut set = SocketSet::new(Vec::new(alloc));
    for port in ports {
        let _ = add_udp(&mut set, alloc, port);
    }
    set
}

// Whether a value prints as this text. If memory for it is refused, the next call gets it.
fn prints<T: Display>(alloc: Global, value: &T, text: &str) -> bool {
    for _ in 0..2 {
        if let Ok(printed) = format!(in alloc; "{value}") {
            return printed.as_str() == text;
        }
    }
    false
}

// Whether a set has a socket of a kind.
fn has<'a, T: AnySocket<'a>>(set: &SocketSet<'a>, handle: SocketHandle) -> bool {
    set.get::<T>(handle).is_some()
}

// Takes a socket out of a set, and says whether there was one.
fn is_removed<'a>(set: &mut SocketSet<'a>, handle: SocketHandle) -> bool {
    match set.remove(handle) {
        Some(_socket) => true,
        None => false,
    }
}

/// Whether the first of two places is free once its socket is removed, and taken again.
fn frees(
    set: &mut SocketSet<'_>,
    alloc: Global,
    first: SocketHandle,
    second: SocketHandle,
) -> bool {
    prints(alloc, &first, "#0")
        && prints(alloc, &second, "#1")
        && is_removed(set, first)
        && !is_removed(set, first)
        && !has::<udp::Socket<'_>>(set, first)
        && has::<udp::Socket<'_>>(set, second)
        && add_udp(set, alloc, 3) == Some(first)
}

#[test]
fn a_freed_place_is_taken_again(rt: HostRuntime) {
    let mut set = SocketSet::new(Vec::new(rt.alloc()));
    let first = add_udp(&mut set, rt.alloc(), 1).unwrap_or_default();
    let second = add_udp(&mut set, rt.alloc(), 2).unwrap_or_default();
    assert!(rt; frees(&mut set, rt.alloc(), first, second));
}

// Whether the socket at an index may be asked, where this neighbour is known.
fn may_be_asked(set: &mut SocketSet<'_>, index: usize, micros: u32, known: IpAddress) -> bool {
    let timestamp = Instant::from_micros(i64::from(micros));
    by_index::egress_permitted(set, index, timestamp, |a| a == known)
}

/// The index of a socket, microseconds, and whether it may be asked then.
const WAITS: [(usize, u32, bool); 6] = [
    (0, 1_000_000, false),
    (0, 1_999_999, false),
    (0, 2_000_000, true),
    (0, 1_999_999, false),
    (1, 1_000_000, true),
    (2, 2_000_000, false),
];

/// The place of the first row that is otherwise.
fn first_other_wait(set: &mut SocketSet<'_>) -> Option<usize> {
    for (place, (index, micros, permitted)) in WAITS.iter().enumerate() {
        if may_be_asked(set, *index, *micros, SECOND) != *permitted {
            return Some(place);
        }
    }
    None
}

/// Whether a new socket at the place of one that waited doesn't wait, nor one whose neighbour has become known.
fn waits_no_longer(set: &mut SocketSet<'_>, alloc: Global) -> bool {
    let is_new = is_removed(set, SocketHandle::default())
        && !may_be_asked(set, 0, 3_000_000, FIRST)
        && add_udp(set, alloc, 3) == Some(SocketHandle::default())
        && may_be_asked(set, 0, 0, SECOND);
    by_index::neighbor_missing(set, 0, Instant::from_secs(1), FIRST);
    is_new && may_be_asked(set, 0, 0, FIRST) && may_be_asked(set, 0, 0, SECOND)
}

#[test]
fn a_socket_waits_at_its_place(rt: HostRuntime) {
    let mut set = udp_set(rt.alloc(), 1..3);
    by_index::neighbor_missing(&mut set, 0, Instant::from_secs(1), FIRST);
    by_index::neighbor_missing(&mut set, 2, Instant::from_secs(1), FIRST);
    let are_right = first_other_wait(&mut set).is_none();
    assert!(rt; are_right && waits_no_longer(&mut set, rt.alloc()));
}

/// A socket that found no neighbour at 1 s says when it is to be asked again, and then answers for itself.
fn tells_its_wait(set: &mut SocketSet<'_>) -> bool {
    by_index::neighbor_missing(set, 0, Instant::from_secs(1), FIRST);
    let (soon, end) = (Instant::from_millis(1500), Instant::from_millis(2000));
    by_index::poll_at(set, 0, soon, |_| false) == PollAt::Time(end)
        && by_index::poll_at(set, 0, end, |_| false) == PollAt::Ingress
}

#[test]
fn a_wait_is_told_until_its_end(rt: HostRuntime) {
    assert!(rt; tells_its_wait(&mut udp_set(rt.alloc(), 1..2)));
}

// A set with one place. If its room is refused, the next call gets it.
fn fixed_set<'a>(alloc: Global) -> SocketSet<'a> {
    let mut places = Vec::new(alloc);
    if places.push(SocketStorage::EMPTY).is_err() {
        let _ = places.push(SocketStorage::EMPTY);
    }
    SocketSet::fixed(places)
}

// Whether a set gives a socket back, since it is full.
fn is_full<'a>(set: &mut SocketSet<'a>, alloc: Global, port: u16) -> bool {
    match udp_socket(alloc, port) {
        Ok(socket) => match set.add(socket) {
            Ok(_handle) => false,
            Err(AddError::Full(_socket)) => true,
            Err(AddError::NoMemory(_socket)) => false,
        },
        Err(NoMemory) => false,
    }
}

fn gives_back(set: &mut SocketSet<'_>, alloc: Global) -> bool {
    add_udp(set, alloc, 7) == Some(SocketHandle::default())
        && is_full(set, alloc, 8)
        && by_index::places(set) == 1
}

#[test]
fn a_fixed_set_gives_the_socket_back(rt: HostRuntime) {
    assert!(rt; gives_back(&mut fixed_set(rt.alloc()), rt.alloc()));
}

const REMOTE: IpEndpoint = IpEndpoint {
    addr: SECOND,
    port: 5000,
};

// A socket without room for segments, which takes no memory.
fn tcp_socket<'a>(alloc: Global, port: u16) -> Result<tcp::Socket<'a>, NoMemory> {
    let local = IpListenEndpoint { addr: None, port };
    let rx = Queue::new(alloc, 0, 0)?;
    let tx = Queue::new(alloc, 0, 0)?;
    Ok(tcp::SocketOf::new(local, None, rx, tx))
}

// Whether a socket is at a port.
fn is_at<'a>(socket: &tcp::Socket<'a>, port: u16) -> bool {
    socket.accepts(&REMOTE, &IpEndpoint { addr: FIRST, port })
}

// Whether a set's sockets are at these ports, in this order.
fn are_at<'a>(set: &SocketSet<'a>, ports: &[u16]) -> bool {
    let mut sockets = set.iter();
    for port in ports {
        match sockets.next() {
            Some((_, SocketOf::Tcp(socket))) if is_at(socket, *port) => {}
            _ => return false,
        }
    }
    sockets.next().is_none()
}

// Adds a socket at a port to a set, and says whether it left the others at their ports. A refusal
// gives the socket back and leaves the set as it was, and the next call adds it.
fn grows<'a>(alloc: Global, set: &mut SocketSet<'a>, ports: &[u16], port: u16) -> bool {
    let places = by_index::places(set);
    let are_there = are_at(set, ports);
    let Ok(socket) = tcp_socket(alloc, port) else {
        return false;
    };
    match set.add(socket) {
        Ok(_handle) => are_there,
        Err(AddError::Full(_socket)) => false,
        Err(AddError::NoMemory(socket)) => {
            let is_given_back = is_at(&socket, port);
            let is_as_it_was = by_index::places(set) == places && are_at(set, ports);
            let handle = add(set, socket);
            are_there && is_given_back && is_as_it_was && handle.is_some()
        }
    }
}

const PORTS: [u16; 5] = [1, 2, 3, 4, 5];

/// Whether a set takes sockets at all the ports, one after the other.
fn grows_by_all<'a>(alloc: Global, set: &mut SocketSet<'a>) -> bool {
    for i in 0..5 {
        if !grows(alloc, set, &PORTS[..i], PORTS[i]) || by_index::places(set) != i + 1 {
            return false;
        }
    }
    are_at(set, &PORTS)
}

#[test]
fn a_refused_place_leaves_the_set_as_it_was(rt: HostRuntime) {
    let mut set: SocketSet<'_> = SocketSet::new(Vec::new(rt.alloc()));
    assert!(rt; grows_by_all(rt.alloc(), &mut set));
}

fn are_errors_printed(alloc: Global) -> bool {
    let full: AddError<u8> = AddError::Full(0);
    let no_memory: AddError<u8> = AddError::NoMemory(0);
    prints(alloc, &full, "Full") && prints(alloc, &no_memory, "NoMemory")
}

#[test]
fn errors_print_their_names(rt: HostRuntime) {
    assert!(rt; are_errors_printed(rt.alloc()));
}

// Adds a raw socket, and gives its handle.
fn add_raw<'a>(set: &mut SocketSet<'a>, alloc: Global) -> Option<SocketHandle> {
    let (rx, tx) = queues(alloc).ok()?;
    add(
        set,
        raw::SocketOf::new(IpVersion::Ipv4, IpProtocol::Icmp, rx, tx),
    )
}

// Lets each place rest that can, and gives the first that may be busy from then on.
fn first_busy(set: &mut SocketSet<'_>) -> usize {
    for index in 0..by_index::places(set) {
        by_index::rest(set, index);
    }
    by_index::next_busy(set, 0)
}

// Whether the socket at an index alone is busy while it waits, none is once its neighbour is known,
// and it is again once it was lent for writing. The set has 130 places, of which none is busy.
fn is_busy_alone(set: &mut SocketSet<'_>, index: usize) -> bool {
    by_index::neighbor_missing(set, index, Instant::from_secs(1), FIRST);
    let first = first_busy(set);
    let next = by_index::next_busy(set, index.saturating_add(1));
    let is_found = may_be_asked(set, index, 0, FIRST);
    let idle = first_busy(set);
    let is_lent = by_index::socket_mut(set, index).is_some();
    let lent = by_index::next_busy(set, 0);
    is_found && is_lent && [first, next, idle, lent] == [index, 130, 130, index]
}

/// The places of sockets that are busy one after the other.
const BUSY: [usize; 8] = [0, 15, 16, 17, 63, 64, 66, 129];

/// Whether no socket is busy at first, and then each of those alone.
fn are_busy_alone(set: &mut SocketSet<'_>) -> bool {
    if first_busy(set) != 130 {
        return false;
    }
    for index in &BUSY {
        if !is_busy_alone(set, *index) {
            return false;
        }
    }
    true
}

#[test]
fn one_of_many_is_busy(rt: HostRuntime) {
    assert!(rt; are_busy_alone(&mut udp_set(rt.alloc(), 1..131)));
}

/// A place, a port, and the place from there on of a socket that may be at the port.
const PLACES: [(usize, u16, usize); 13] = [
    (0, 0, 0),
    (1, 0, 41),
    (0, 1, 1),
    (2, 1, 41),
    (0, 15, 15),
    (16, 15, 41),
    (0, 16, 16),
    (17, 16, 41),
    (0, 17, 17),
    (18, 17, 41),
    (0, 40, 40),
    (41, 40, 41),
    (0, 41, 41),
];

/// The place of the first row that is otherwise.
fn first_other_place(set: &SocketSet<'_>) -> Option<usize> {
    for (number, (start, port, place)) in PLACES.iter().enumerate() {
        if by_index::next_at(set, *start, Some(*port)) != *place {
            return Some(number);
        }
    }
    None
}

fn are_found(set: &mut SocketSet<'_>) -> bool {
    by_index::next_at(set, 0, Some(7)) == 0
        && first_busy(set) == 41
        && first_other_place(set).is_none()
}

/// Whether what was lent for writing may be anywhere, but is still a UDP socket; lent as one of any kind, it may be of
/// another.
fn may_be_anywhere_once_lent(set: &mut SocketSet<'_>) -> bool {
    by_index::kind_mut::<udp::Socket<'_>, _>(set, 20).is_some()
        && by_index::next_at(set, 0, Some(30)) == 20
        && by_index::next_at(set, 21, Some(30)) == 30
        && !by_index::may_have_portless(set)
        && by_index::socket_mut(set, 20).is_some()
        && by_index::may_have_portless(set)
}

#[test]
fn sockets_are_found_by_their_ports(rt: HostRuntime) {
    let mut set = udp_set(rt.alloc(), 0..41);
    assert!(rt; are_found(&mut set) && may_be_anywhere_once_lent(&mut set));
}

/// Whether the raw socket at place 20 is looked for until it is removed. Nothing is known of a place that has just become
/// free.
fn is_looked_for(set: &mut SocketSet<'_>, handle: SocketHandle) -> bool {
    by_index::may_have_portless(set)
        && first_busy(set) == 21
        && by_index::next_at(set, 0, None) == 20
        && by_index::next_at(set, 0, Some(20)) == 19
        && is_removed(set, handle)
        && !by_index::may_have_portless(set)
        && by_index::next_at(set, 0, None) == 20
        && first_busy(set) == 21
        && by_index::next_at(set, 0, None) == 21
}

#[test]
fn a_raw_socket_is_looked_for_until_it_is_removed(rt: HostRuntime) {
    let mut set = udp_set(rt.alloc(), 1..21);
    let handle = add_raw(&mut set, rt.alloc()).unwrap_or_default();
    assert!(rt; is_looked_for(&mut set, handle));
}
