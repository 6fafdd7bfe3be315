//! The client's second place among the sockets of a host. A raw socket has it while a message to all servers waits there, and else
//! a socket that gets nothing and sends nothing, so that no other one takes it.
ghost use Rattle.std.specs.Prelude.{◌≡◌};
ghost use Rattle.iface_dhcp.specs.Dhcp.{Keeps};
ghost use Rattle.iface_dhcp.specs.Place as spec;

use crate::dhcp::{Dhcp, close_if};
use dhcp_client::message::CLIENT_PORT;
use iface_host::{IfaceHost, Room, Rooms};
use sockets::icmp;

/// No room at all.
const NO_ROOM: Room = Room {
    packets: 0,
    octets: 0,
};

const NO_ROOMS: Rooms = Rooms {
    received: NO_ROOM,
    to_send: NO_ROOM,
};

impl Dhcp {
    /// Keeps the place, unless it is kept already.
    pub(crate) fn keep_place(&mut self, host: &mut IfaceHost)
        ensures { spec.KeepsPlace self.old self.new host.old host.new }
    {
        if self.kept.is_none() {
            self.kept = keep_place(host);
        }
    }

    /// Leaves the place, so that another socket can have it.
    pub(crate) fn leave_place(&mut self, host: &mut IfaceHost)
        ensures { spec.LeavesPlace self.old self.new host.old host.new }
    {
        close_if(host, &self.kept);
        self.kept = None;
    }
}

/// Keeps a place, and returns the number of what keeps it; none, without a place or memory.
pub(crate) fn keep_place(host: &mut IfaceHost) -> Option<u32>
    ensures { Keeps result host.old host.new }
{
    match host.open_icmp(icmp::Endpoint::Udp(CLIENT_PORT), NO_ROOMS) {
        Ok(number) => Some(number),
        Err(_) => None,
    }
}
