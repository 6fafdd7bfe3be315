//! Lines that `docs/SIMULATE.md` doesn't have: each is refused, with its number and a reason.
use anyhow::Result;
use simulation_script::line::script_in;
use std::alloc::Global;

/// Two hosts, which a line may name, with a socket and a listener: six lines.
const HOSTS: &str = "\
host a 02:00:00:00:00:01
addr a 10.0.0.1/24
udp a 7
listen a 80
host b 02:00:00:00:00:02
# the line that follows is wrong
";

/// What is said of a line behind those.
fn refusal_of(alloc: Global, line: &str) -> Result<String> {
    let text = format!(in alloc; "{HOSTS}{line}\n")?;
    match script_in(alloc, text.as_str()) {
        Ok(_script) => Ok(format!(in alloc; "it is read")?),
        Err(error) => Ok(format!(in alloc; "{error:#}")?),
    }
}

/// The first line that isn't refused by its reason, with what is said of it.
fn first_other(alloc: Global, cases: &[(&str, &str)]) -> Result<Option<String>> {
    for (line, reason) in cases {
        let said = refusal_of(alloc, line)?;
        let wanted = format!(in alloc; "line 7: {reason}")?;
        if said.as_str() != wanted.as_str() {
            return Ok(Some(format!(in alloc; "{line}: {said}")?));
        }
    }
    Ok(None)
}

/// Lines of TCP.
const STREAMS: [(&str, &str); 22] = [
    ("listen", "a word is missing"),
    ("listen a", "a word is missing"),
    ("listen c 81", "c is no host"),
    ("listen a 0", "0 is no port"),
    ("listen a 65536", "65536 is no number up to 65535"),
    ("listen a -1", "-1 is no number up to 65535"),
    ("listen a http", "http is no number up to 65535"),
    ("listen a 80", "the host listens at 80 already"),
    ("listen a 81 82", "too many words"),
    ("stream", "a word is missing"),
    ("stream c 10.0.0.1 80 1 0", "c is no host"),
    ("stream a 10.0.0 80 1 0", "10.0.0 is no address"),
    ("stream a 10.0.0.256 80 1 0", "10.0.0.256 is no address"),
    ("stream a 10.0.0.2/24 80 1 0", "10.0.0.2/24 is no address"),
    (
        "stream a fd00::2 80 1 0",
        "the host has no address from which fd00::2 is reached",
    ),
    (
        "stream b 10.0.0.1 80 1 0",
        "the host has no address from which 10.0.0.1 is reached",
    ),
    ("stream a 10.0.0.2 0 1 0", "0 is no port"),
    ("stream a 10.0.0.2 80", "a word is missing"),
    (
        "stream a 10.0.0.2 80 1000000001 0",
        "1000000001 is no number up to 1000000000",
    ),
    ("stream a 10.0.0.2 80 1", "a word is missing"),
    (
        "stream a 10.0.0.2 80 1 86400000001",
        "86400000001 is no number up to 86400000000",
    ),
    ("stream a 10.0.0.2 80 1 0 random", "too many words"),
];

#[test]
fn lines_of_connections(rt: HostRuntime) {
    let other = first_other(rt.alloc(), &STREAMS);
    assert!(rt; matches!(other, Ok(None)), "{other:?}");
}

/// Lines of hosts, and of what they have.
const PARTS: [(&str, &str); 53] = [
    ("hosst c 02:00:00:00:00:03", "hosst is no word of scripts"),
    ("host", "a word is missing"),
    ("host c", "a word is missing"),
    ("host a 02:00:00:00:00:03", "a is a host already"),
    (
        "host c 02:00:00:00:00",
        "02:00:00:00:00 is no Ethernet address",
    ),
    (
        "host c 02:00:00:00:00:03:04",
        "02:00:00:00:00:03:04 is no Ethernet address",
    ),
    (
        "host c 02:00:00:00:00:100",
        "02:00:00:00:00:100 is no Ethernet address",
    ),
    ("host c 02:00:00:00:00:02", "b has this Ethernet address"),
    (
        "host c 01:00:5e:00:00:01",
        "the Ethernet address is a group's",
    ),
    (
        "host c ff:ff:ff:ff:ff:ff",
        "the Ethernet address is a group's",
    ),
    ("host c 02:00:00:00:00:03 dhcp", "only slaac may follow"),
    ("host c 02:00:00:00:00:03 slaac slaac", "too many words"),
    ("addr a 10.0.0.2", "10.0.0.2 is no address with a prefix"),
    (
        "addr a 10.0.0.2/33",
        "10.0.0.2/33 is no address with a prefix",
    ),
    (
        "addr a fd00::1/129",
        "fd00::1/129 is no address with a prefix",
    ),
    ("addr a 224.0.0.1/24", "224.0.0.1 is no host's address"),
    ("addr a ff02::1/64", "ff02::1 is no host's address"),
    (
        "addr a 255.255.255.255/0",
        "255.255.255.255 is no host's address",
    ),
    ("addr c 10.0.0.2/24", "c is no host"),
    ("gateway a 10.0.0.0/24", "10.0.0.0/24 is no address"),
    ("join a", "a word is missing"),
    ("join a 10.0.0.2", "10.0.0.2 is no group"),
    ("join a fd00::2", "fd00::2 is no group"),
    ("udp a 0", "0 is no port"),
    ("echo b 0", "0 is no port"),
    ("echo c 9", "c is no host"),
    ("router a 10.0.0.0/24 1800 1000000", "only IPv6"),
    (
        "router a fd00::/64 9001 1000000",
        "9001 is no number up to 9000",
    ),
    (
        "router a fd00::/64 1800 0",
        "0 is no time between advertisements",
    ),
    (
        "router a fd00::/64 1800 1000000",
        "the host has no link-local address",
    ),
    (
        "hosts 1000001 10.1.0.1/16 7",
        "1000001 is no number up to 1000000",
    ),
    ("hosts 2 fd00::1/64 7", "only IPv4"),
    ("hosts 2 10.1.0.1/16 0", "0 is no port"),
    (
        "hosts 5 10.0.0.254/30 7",
        "its network doesn't have 5 addresses from 10.0.0.254 on",
    ),
    (
        "hosts 2 10.0.0.254/24 7",
        "its network doesn't have 2 addresses from 10.0.0.254 on",
    ),
    (
        "hosts 3 10.0.0.0/31 7",
        "its network doesn't have 3 addresses from 10.0.0.0 on",
    ),
    (
        "hosts 9 255.255.255.250/0 7",
        "its network doesn't have 9 addresses from 255.255.255.250 on",
    ),
    (
        "hosts 1 255.255.255.255/32 7",
        "255.255.255.255 is no host's address",
    ),
    (
        "hosts 2 223.255.255.255/0 7",
        "224.0.0.0 is no host's address",
    ),
    ("hosts 2 0.0.0.1/8 7", "a has this Ethernet address"),
    ("hosts 2 0.0.0.2/8 7", "b has this Ethernet address"),
    ("neighbors", "a word is missing"),
    ("neighbors 0", "0 is no room"),
    ("neighbors 65537", "65537 is no number up to 65536"),
    ("neighbors 9 c", "c is no host"),
    ("fragmented 0 a", "0 is no room"),
    ("fragmented 1025", "1025 is no number up to 1024"),
    ("fragmented 2 a b", "too many words"),
    ("leave a 0 10.0.0.2", "10.0.0.2 is no group"),
    ("leave a 0", "a word is missing"),
    ("leave a 0 all", "all is no address"),
    ("down c 0 1", "c is no host"),
    ("down a 5 3", "3 is less than 5"),
];

#[test]
fn lines_of_hosts(rt: HostRuntime) {
    let other = first_other(rt.alloc(), &PARTS);
    assert!(rt; matches!(other, Ok(None)), "{other:?}");
}

/// Lines of the link, of datagrams, pings, packets and frames.
const TRAFFIC: [(&str, &str); 33] = [
    ("seed", "a word is missing"),
    (
        "seed 18446744073709551616",
        "18446744073709551616 is no number up to 18446744073709551615",
    ),
    (
        "until 86400000001",
        "86400000001 is no number up to 86400000000",
    ),
    ("patience soon", "soon is no number up to 86400000000"),
    ("loss 1001", "1001 is no number up to 1000"),
    ("loss 10 c", "c is no host"),
    ("loss 10 a b", "too many words"),
    ("delay 10", "a word is missing"),
    ("delay 900 100", "100 is less than 900"),
    ("reorder 10", "a word is missing"),
    ("change 2000", "2000 is no number up to 1000"),
    ("rate 0 10", "0 is no rate"),
    (
        "rate 1000000001 10",
        "1000000001 is no number up to 1000000000",
    ),
    ("rate 10", "a word is missing"),
    ("chart 0 1 a c", "c is no host"),
    ("chart 5 3", "3 is less than 5"),
    ("send a 8 10.0.0.2 9 8 1 0 0", "the host has no socket at 8"),
    ("send b 7 10.0.0.2 9 8 1 0 0", "the host has no socket at 7"),
    ("send a 7 10.0.0.2 0 8 1 0 0", "0 is no port"),
    (
        "send a 7 10.0.0.2 9 7 1 0 0",
        "a payload has 8 octets or more",
    ),
    (
        "send a 7 10.0.0.2 9 4001 1 0 0",
        "4001 is no number up to 4000",
    ),
    (
        "send a 7 10.0.0.2 9 8 1 0 0 often",
        "only random may follow",
    ),
    ("send a 7 10.0.0.2 9 8 1 0", "a word is missing"),
    (
        "ping a 10.0.0.2 65537 0 0",
        "65537 is no number up to 65536",
    ),
    ("ping a 10.0.0.2 1 0 0 random random", "too many words"),
    (
        "ping a fd00::2 1 0 0",
        "the host has no address from which fd00::2 is reached",
    ),
    (
        "ping b 10.0.0.1 1 0 0",
        "the host has no address from which 10.0.0.1 is reached",
    ),
    (
        "raw a 0 4500zz",
        "no octets in hex: Invalid character 'z' at position 4",
    ),
    ("raw c 0 4500", "c is no host"),
    (
        "frame 0 ffffffffffff02000000000908",
        "a frame has 14 to 1514 octets",
    ),
    (
        "frame 86400000001 00",
        "86400000001 is no number up to 86400000000",
    ),
    ("frame 0", "a word is missing"),
    (
        "udp a 1 2 3 4 5 6 7 8 9 10 11 12 13 14 15",
        "too many words",
    ),
];

#[test]
fn lines_of_traffic(rt: HostRuntime) {
    let other = first_other(rt.alloc(), &TRAFFIC);
    assert!(rt; matches!(other, Ok(None)), "{other:?}");
}

/// Lines of links and of routers between them.
const LINKS: [(&str, &str); 16] = [
    ("link", "a word is missing"),
    ("link 2", "a word is missing"),
    ("link 0 a", "0 is no link"),
    ("link 9 a", "9 is no number up to 8"),
    ("link two a", "two is no number up to 8"),
    ("link 2 c", "c is no host"),
    ("link 2 a c", "c is no host"),
    ("link 2 a to", "a word is missing"),
    ("link 2 a to c", "c is no host"),
    ("link 2 b to a", "a stands before b"),
    ("forward", "a word is missing"),
    ("forward a", "a word is missing"),
    ("forward a c", "c is no host"),
    ("forward a a", "a and a are on one link"),
    ("forward a b", "a and b are on one link"),
    ("forward a 2", "2 is no host"),
];

#[test]
fn lines_of_links(rt: HostRuntime) {
    let other = first_other(rt.alloc(), &LINKS);
    assert!(rt; matches!(other, Ok(None)), "{other:?}");
}

/// Hosts of two links with a router between them, of which one line more is said.
const ROUTER: &str = "\
host a 02:00:00:00:00:01
host b 02:00:00:00:00:02
host c 02:00:00:00:00:03
link 2 b c
forward a b
";

/// What is said of a line about hosts of a router.
fn refusal_of_router(alloc: Global, line: &str) -> Result<String> {
    match script_in(alloc, format!(in alloc; "{ROUTER}{line}\n")?.as_str()) {
        Ok(_script) => Ok(format!(in alloc; "it is read")?),
        Err(error) => Ok(format!(in alloc; "{error:#}")?),
    }
}

#[test]
fn hosts_of_routers_stay(rt: HostRuntime) {
    for (line, host) in [
        ("forward b a", "b"),
        ("forward a c", "a"),
        ("forward c a", "a"),
        ("link 3 b", "b"),
        ("link 1 a to c", "a"),
    ] {
        let said = refusal_of_router(rt.alloc(), line);
        let wanted = format!(in rt.alloc(); "line 6: {host} is of a router already");
        let is_said = match (&said, &wanted) {
            (Ok(said), Ok(wanted)) => said.as_str() == wanted.as_str(),
            _ => false,
        };
        assert!(rt; is_said, "{said:?}");
    }
}

/// More of one thing than a host may have: the line that is too much, behind as many as may be.
fn refusal_behind(alloc: Global, line: &str, times: usize) -> Result<String> {
    let mut lines = String::new(alloc);
    for number in 0..times {
        let port = number.saturating_add(100);
        lines.push_str(format!(in alloc; "{line}{port}\n")?.as_str())?;
    }
    match script_in(alloc, format!(in alloc; "{HOSTS}{lines}")?.as_str()) {
        Ok(_script) => Ok(format!(in alloc; "it is read")?),
        Err(error) => Ok(format!(in alloc; "{error:#}")?),
    }
}

#[test]
fn more_than_a_host_may_have(rt: HostRuntime) {
    let cases = [
        ("udp b ", 8, "it is read"),
        ("udp b ", 9, "line 15: too many of these at one host"),
        ("echo b ", 9, "line 15: too many of these at one host"),
        ("addr b 10.0.0.2/24 #", 0, "it is read"),
        ("gateway b 10.0.0.", 2, "it is read"),
        (
            "gateway b 10.0.0.",
            3,
            "line 9: too many of these at one host",
        ),
        ("join b 224.0.0.", 8, "it is read"),
        (
            "join b 224.0.0.",
            9,
            "line 15: too many of these at one host",
        ),
        ("down b 1 ", 8, "it is read"),
        ("down b 1 ", 9, "line 15: too many of these at one host"),
    ];
    for (line, times, wanted) in cases {
        let said = refusal_behind(rt.alloc(), line, times);
        assert!(rt;
            said.as_ref().is_ok_and(|said| said.as_str() == wanted),
            "{line}: {said:?}"
        );
    }
}
