//! Two ends of a connection, and the segments on their way.

use std::alloc::{AllocError, Global};
use std::collections::VecDeque;
use tcp_connection::connection::Connection;
use tcp_connection::outgoing::Header;
use tcp_connection::segment::Segment;
use tcp_machine::settings::Settings;

/// The octets of each ring.
pub const ROOM: usize = 1_000;

/// The most octets of a segment, either way.
pub const MSS: u16 = 100;

/// What both programs choose.
pub const SETTINGS: Settings = Settings {
    nagle: true,
    ack_delay: 10_000,
    keep_alive: None,
    timeout: None,
    shortest_timeout: 1_000_000,
    congestion_control: true,
    time_wait: 60_000_000,
    own_mss: MSS,
    own_scale: 0,
};

/// A segment on its way, with its octets.
#[derive(Drop)]
pub struct Packet {
    pub segment: Segment,
    pub octets: Vec<u8>,
}

/// A connection that was never opened.
pub fn unopened(alloc: Global) -> Result<Connection, AllocError> {
    Connection::new(alloc, ROOM, ROOM, &SETTINGS)
}

/// What a header is on its way. A SYN tells the MSS, and no scale.
pub fn segment_of(header: &Header) -> Segment {
    Segment {
        number: header.number,
        ack: header.ack,
        window: header.window,
        syn: header.syn,
        fin: header.fin,
        rst: header.rst,
        mss: if header.syn { Some(MSS) } else { None },
        scale: None,
        sack_permitted: header.syn,
        blocks: [None; 4],
    }
}

/// The header of the next segment, which is sent.
pub fn send_one(from: &mut Connection, now: u64) -> Option<Header> {
    let action = from.next_action(now)?;
    let header = from.header(&action);
    from.sent(now, &action);
    Some(header)
}

/// All that a connection sends now goes on its way.
pub fn send(
    alloc: Global,
    from: &mut Connection,
    now: u64,
    wire: &mut VecDeque<Packet>,
) -> Result<(), AllocError> {
    for _ in 0..100 {
        let Some(action) = from.next_action(now) else {
            return Ok(());
        };
        let segment = segment_of(&from.header(&action));
        let octets = Vec::from_slice(alloc, from.octets(&action))?;
        wire.push_back(Packet { segment, octets })?;
        from.sent(now, &action);
    }
    Ok(())
}

/// A packet arrives.
pub fn arrive(to: &mut Connection, now: u64, packet: &Packet) {
    if packet.octets.len() <= 65_535 {
        to.receive(now, 536, MSS, &packet.segment, &packet.octets);
    }
}

/// A segment without octets arrives.
pub fn arrive_empty(to: &mut Connection, now: u64, segment: &Segment) {
    to.receive(now, 536, MSS, segment, &[]);
}
