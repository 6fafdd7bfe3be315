//! How a host of a router sends what came to the other one: by raw sockets, one for each version of IP and protocol.

use crate::packets::{add_raw, kind_of, queue_packet};
use anyhow::Result;
use ip_wire::{IpProtocol, IpVersion};
use socket_set::{SocketHandle, SocketSet};
use std::alloc::Global;
use std::cell::Cell;

/// The most raw sockets by which a host forwards.
pub const MOST_SOCKETS: usize = 8;

/// A raw socket by which a host forwards.
#[derive(Clone, Copy)]
struct Exit {
    version: IpVersion,
    protocol: IpProtocol,
    handle: SocketHandle,
}

impl Exit {
    /// Whether it is for packets of a version and a protocol.
    fn is_for(&self, version: IpVersion, protocol: IpProtocol) -> bool {
        self.version == version && self.protocol.number() == protocol.number()
    }

    /// Whether it may send UDP: it is for UDP, or for packets with hop-by-hop options.
    fn may_be_udp(&self) -> bool {
        matches!(self.protocol.number(), 0 | 17)
    }
}

/// What a host of a router sends for the other one.
#[derive(Drop)]
pub struct Forwarder {
    alloc: Global,
    // The packet that is handed to it, until it is queued.
    handed: Cell<Option<Vec<u8>>>,
    // Its sockets.
    exits: Vec<Exit>,
    /// Whether the last packet was queued: its socket had room.
    pub is_queued: bool,
}

impl Forwarder {
    /// Nothing was handed to it.
    pub fn new(alloc: Global) -> Forwarder {
        Forwarder {
            alloc,
            handed: Cell::new(None),
            exits: Vec::new(alloc),
            is_queued: false,
        }
    }

    /// Hands a packet to it, which it queues in its next turn.
    pub fn hand(&self, packet: Vec<u8>) {
        self.handed.set(Some(packet));
    }

    /// Whether one of its sockets may send UDP.
    pub fn may_send_udp(&self) -> bool {
        for exit in self.exits.iter() {
            if exit.may_be_udp() {
                return true;
            }
        }
        false
    }

    /// Queues the packet that was handed to it, if there is room.
    pub fn queue(&mut self, sockets: &mut SocketSet<'_>) -> Result<()> {
        self.is_queued = false;
        match self.handed.replace(None) {
            Some(packet) => self.queue_packet(&packet, sockets),
            None => Ok(()),
        }
    }

    /// Queues a packet in the socket of its version and protocol, if there is room.
    fn queue_packet(&mut self, packet: &[u8], sockets: &mut SocketSet<'_>) -> Result<()> {
        let (version, protocol) = kind_of(packet);
        if let Some(handle) = self.exit(version, protocol, sockets)? {
            self.is_queued = queue_packet(sockets, handle, packet);
        }
        Ok(())
    }

    /// The socket of a version and a protocol, which is added if it isn't there. `None` if there are too many.
    fn exit(
        &mut self,
        version: IpVersion,
        protocol: IpProtocol,
        sockets: &mut SocketSet<'_>,
    ) -> Result<Option<SocketHandle>> {
        for exit in self.exits.iter() {
            if exit.is_for(version, protocol) {
                return Ok(Some(exit.handle));
            }
        }
        if self.exits.len() >= MOST_SOCKETS {
            return Ok(None);
        }
        self.add_exit(version, protocol, sockets)
    }

    /// Adds a socket of a version and a protocol.
    fn add_exit(
        &mut self,
        version: IpVersion,
        protocol: IpProtocol,
        sockets: &mut SocketSet<'_>,
    ) -> Result<Option<SocketHandle>> {
        self.exits.try_reserve(1)?;
        let handle = add_raw(self.alloc, sockets, version, protocol)?;
        self.exits.push(Exit {
            version,
            protocol,
            handle,
        })?;
        Ok(Some(handle))
    }
}
