//! Lines that are read, and what they mean by `docs/SIMULATE.md`.
use anyhow::Result;
use ip_wire::{IpAddress, Ipv4Address};
use simulation_script::line::script_in;
use std::alloc::Global;

/// A host of two networks that listens at a port, and sends two streams.
const TEXT: &str = "\
host a 02:00:00:00:00:01
host b 02:00:00:00:00:02
addr b 10.0.0.1/24
addr b 10.0.1.1/24
listen b 80
listen b 443
stream b 10.0.1.9 81 1000000000 86400000000
stream b 192.0.2.1 82 0 5
";

/// Of each listener the number of its host, and its port; of each stream the number of its host, the last two octets of the
/// address that it comes from, the port that it goes to, its octets and its start.
fn numbers_of(alloc: Global, text: &str) -> Result<Vec<u64>> {
    let script = script_in(alloc, text)?;
    let mut numbers = Vec::new(alloc);
    for listener in script.listeners.iter() {
        numbers.push(listener.host as u64)?;
        numbers.push(listener.port.into())?;
    }
    for stream in script.streams.iter() {
        let local = match stream.local {
            IpAddress::Ipv4(Ipv4Address { bits }) => bits % 65_536,
            IpAddress::Ipv6(_) => 0,
        };
        numbers.push(stream.host as u64)?;
        numbers.push(local.into())?;
        numbers.push(stream.remote.port.into())?;
        numbers.push(stream.octets)?;
        numbers.push(stream.start)?;
    }
    Ok(numbers)
}

#[test]
fn connections_and_where_they_come_from(rt: HostRuntime) {
    let wanted = [
        1,
        80,
        1,
        443, // the listeners
        1,
        0x0101,
        81,
        1_000_000_000,
        86_400_000_000, // from the address of the network
        1,
        0x0001,
        82,
        0,
        5, // from the first one
    ];
    let numbers = numbers_of(rt.alloc(), TEXT);
    assert!(rt;
        numbers
            .as_ref()
            .is_ok_and(|numbers| numbers.as_slice() == &wanted[..])
    );
}

/// For how many neighbours and datagrams in fragments there is room: at hosts of which nothing is said, and at each host.
fn rooms_in(alloc: Global, text: &str) -> Result<Vec<usize>> {
    let script = script_in(alloc, text)?;
    let mut rooms = Vec::new(alloc);
    rooms.push(script.rooms.neighbors)?;
    rooms.push(script.rooms.fragmented)?;
    for host in 0..script.hosts.len() {
        let room = script.rooms_of(Some(host));
        rooms.push(room.neighbors)?;
        rooms.push(room.fragmented)?;
    }
    Ok(rooms)
}

/// Hosts, of which some have other room than C gives, and what each has.
const ROOMS: [(&str, &[usize]); 2] = [
    ("host a 02:00:00:00:00:01\n", &[128, 16, 128, 16]),
    (
        "host a 02:00:00:00:00:01\nhost b 02:00:00:00:00:02\nneighbors 9\nfragmented 3 b\nneighbors 20 a\n",
        &[9, 16, 20, 16, 9, 3],
    ),
];

#[test]
fn rooms_of_hosts(rt: HostRuntime) {
    for (text, wanted) in ROOMS {
        let rooms = rooms_in(rt.alloc(), text);
        assert!(rt; rooms.as_ref().is_ok_and(|rooms| rooms.as_slice() == wanted));
    }
}

/// Six hosts, of which some are on other links than the first, and two of a router.
const LINKS: &str = "\
host a 02:00:00:00:00:01
hosts 4 10.0.0.1/24 7
host b 02:00:00:00:00:02
link 2 h2 to h4
link 8 b h4
forward h3 a
";

/// Of each host its link, and the number of the way that begins at it; then of each way the numbers of both hosts.
fn links_in(alloc: Global, text: &str) -> Result<Vec<usize>> {
    let script = script_in(alloc, text)?;
    let mut numbers = Vec::new(alloc);
    for host in 0..script.hosts.len() {
        numbers.push(script.link_of(Some(host)))?;
        numbers.push(script.way_from(host).unwrap_or(9))?;
    }
    for way in script.ways.iter() {
        numbers.push(way.from)?;
        numbers.push(way.to)?;
    }
    Ok(numbers)
}

#[test]
fn links_and_ways(rt: HostRuntime) {
    let numbers = links_in(rt.alloc(), LINKS);
    let wanted = [1, 1, 1, 9, 2, 9, 2, 0, 8, 9, 8, 9, 3, 0, 0, 3];
    assert!(rt;
        numbers
            .as_ref()
            .is_ok_and(|numbers| numbers.as_slice() == &wanted[..])
    );
}

/// Two pairs at one port, a host that listens there too, and one that listens at the port of no stream.
const PAIRS: &str = "\
host a 02:00:00:00:00:01
addr a 10.0.0.1/24
host b 02:00:00:00:00:02
addr b 10.0.0.2/24
listen b 80
host c 02:00:00:00:00:03
addr c 10.0.0.3/24
addr c fd00::3/64
host d 02:00:00:00:00:04
addr d 10.0.0.4/24
addr d fd00::4/64
listen d 80
host e 02:00:00:00:00:05
addr e 10.0.0.5/24
listen e 80
host f 02:00:00:00:00:06
addr f 10.0.0.6/24
listen f 81
stream a 10.0.0.2 80 1 0
stream c fd00::4 80 1 0
stream a 10.0.0.6 80 1 0
";

/// How many streams each host sends or may accept.
fn counts_in(alloc: Global, text: &str) -> Result<Vec<usize>> {
    let script = script_in(alloc, text)?;
    let mut counts = Vec::new(alloc);
    for host in 0..script.hosts.len() {
        counts.push(script.count_streams(host))?;
    }
    Ok(counts)
}

#[test]
fn streams_of_each_host(rt: HostRuntime) {
    let counts = counts_in(rt.alloc(), PAIRS);
    let wanted = [2, 1, 1, 1, 0, 0];
    assert!(rt;
        counts
            .as_ref()
            .is_ok_and(|counts| counts.as_slice() == &wanted[..])
    );
}

/// Hosts of both families, and lines behind them that are just read.
const HOSTS: &str = "\
host a 02:00:00:00:00:01 slaac
host b 02:00:00:00:00:02
addr b 10.0.0.1/24
addr b fe80::2/64
";

const READ: [&str; 10] = [
    "delay 5 5",
    "down a 5 5",
    "chart 5 5",
    "hosts 2 10.0.0.253/24 7",
    "hosts 2 10.0.0.0/31 7",
    "hosts 1 10.0.0.9/32 7",
    "ping a fd00::2 1 0 0",
    "ping b 192.0.2.1 1 0 0",
    "router b fd00::/64 1800 1000000",
    "host c 00:00:00:00:00:00",
];

/// The first line that is refused.
fn first_refused(alloc: Global) -> Result<Option<&'static str>> {
    for line in READ {
        let text = format!(in alloc; "{HOSTS}{line}\n")?;
        if script_in(alloc, text.as_str()).is_err() {
            return Ok(Some(line));
        }
    }
    Ok(None)
}

#[test]
fn lines_that_are_just_read(rt: HostRuntime) {
    let refused = first_refused(rt.alloc());
    assert!(rt; matches!(refused, Ok(None)), "{refused:?}");
}

/// Of a chart's line the time up to which it shows copies, and whether it shows those of each of two hosts.
fn shown_in(alloc: Global, line: &str) -> Result<(u64, bool, bool)> {
    let text = format!(in alloc; "{HOSTS}{line}\n")?;
    let section = script_in(alloc, text.as_str())?.section;
    Ok((section.until, section.shows(0), section.shows(1)))
}

#[test]
fn hosts_in_a_chart(rt: HostRuntime) {
    let cases = [
        ("# none", u64::MAX, true, true),
        ("chart 3 9", 9, true, true),
        ("chart 3 9 b", 9, false, true),
    ];
    for (line, until, first, second) in cases {
        let shown = shown_in(rt.alloc(), line);
        assert!(rt; shown.as_ref().is_ok_and(|it| *it == (until, first, second)));
    }
}
