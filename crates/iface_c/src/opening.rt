//! Sockets: opened and closed.
ghost use Rattle.std.specs.Prelude.{◌≡◌, ◌≢◌, None, Some, IsSomeAnd};
ghost use Rattle.iface_c.specs.Addresses.{listen_end_in, version_in};
ghost use Rattle.iface_c.specs.Calls.{Did};
ghost use Rattle.iface_c.specs.Handle.{host_in};
ghost use Rattle.iface_c.specs.Opening.{rooms_in};
ghost use Rattle.iface_c.specs.Status.{IsDueOrMemory, code_by, code_with};
ghost use Rattle.iface_host.specs.Refusals.{close_refusal};
ghost use Rattle.iface_host.specs.Sockets.{Closes, Opens, icmp, raw, udp};
ghost use Rattle.iface_host.specs.TableRefusals.{opening_refusal, udp_opening_refusal};
ghost use Rattle.ip_address.specs.Protocol.{protocol_of};
ghost use Rattle.sockets.specs.declared.icmp.Endpoint.TheVariants as endpoint;

use crate::addresses::IfaceEndpoint;
use crate::handle::Iface;
use crate::status::{BAD_ARGUMENT, NO_HOST, OK, code};
use iface_host::{Room, Rooms};
use ip_wire::{IpProtocol, IpVersion};
use sockets::icmp;
use std::alloc::Global;

/// How much the two queues of a socket hold.
#[repr(C)]
#[derive(Drop)]
pub struct IfaceRooms {
    /// How many packets the queue for what comes holds.
    pub received_packets: u32,
    /// How many octets of them, together.
    pub received_octets: u32,
    /// How many packets the queue for what goes holds.
    pub to_send_packets: u32,
    /// How many octets of them, together.
    pub to_send_octets: u32,
}

impl IfaceRooms {
    /// What each of the two queues holds.
    pub fn rooms(&self) -> Rooms
        ensures { result ≡ rooms_in self.now }
    {
        Rooms {
            received: Room {
                packets: self.received_packets as usize,
                octets: self.received_octets as usize,
            },
            to_send: Room {
                packets: self.to_send_packets as usize,
                octets: self.to_send_octets as usize,
            },
        }
    }
}

/// The version of IP of a number, if it is 4 or 6.
fn version_of(number: u8) -> Option<IpVersion>
    ensures { result ≡ version_in number }
{
    match number {
        4 => Some(IpVersion::Ipv4),
        6 => Some(IpVersion::Ipv6),
        _ => None,
    }
}

/// Opens a UDP socket, and writes its number.
#[unsafe(no_mangle)]
pub extern "C" fn iface_udp_open(
    handle: &mut Iface,
    alloc: Global,
    local: &IfaceEndpoint,
    rooms: &IfaceRooms,
    socket: &mut u32,
) -> u32
    ensures done { Did result (λ old new. IsSomeAnd (listen_end_in local.now) (λ end.
        Opens (udp end (rooms_in rooms.now)) socket.new old new)) handle.old handle.new }
    ensures code { IsDueOrMemory (code_with (λ end host. udp_opening_refusal host end)
        (listen_end_in local.now) (host_in handle.old)) result }
    ensures kept { result ≢ 0 → socket.new ≡ socket.old }
{
    let Some(local) = local.listen_end() else {
        return BAD_ARGUMENT;
    };
    let Some(mut host) = handle.take(alloc) else {
        return NO_HOST;
    };
    let done = host.open_udp(local, rooms.rooms());
    handle.put(host);
    match done {
        Ok(number) => {
            *socket = number;
            OK
        },
        Err(refusal) => code(refusal),
    }
}

/// Opens a raw socket, and writes its number.
#[unsafe(no_mangle)]
pub extern "C" fn iface_raw_open(
    handle: &mut Iface,
    alloc: Global,
    version: u8,
    protocol: u8,
    rooms: &IfaceRooms,
    socket: &mut u32,
) -> u32
    ensures done { Did result (λ old new. IsSomeAnd (version_in version)
        (λ v. Opens (raw v (protocol_of protocol) (rooms_in rooms.now)) socket.new old new))
        handle.old handle.new }
    ensures code { IsDueOrMemory (code_with (λ _ host. opening_refusal host)
        (version_in version) (host_in handle.old)) result }
    ensures kept { result ≢ 0 → socket.new ≡ socket.old }
{
    let Some(version) = version_of(version) else {
        return BAD_ARGUMENT;
    };
    let protocol = IpProtocol::from_number(protocol);
    let Some(mut host) = handle.take(alloc) else {
        return NO_HOST;
    };
    let done = host.open_raw(version, protocol, rooms.rooms());
    handle.put(host);
    match done {
        Ok(number) => {
            *socket = number;
            OK
        },
        Err(refusal) => code(refusal),
    }
}

/// Opens an ICMP socket for echo messages with an identifier, and writes its number.
#[unsafe(no_mangle)]
pub extern "C" fn iface_icmp_open_ident(
    handle: &mut Iface,
    alloc: Global,
    ident: u16,
    rooms: &IfaceRooms,
    socket: &mut u32,
) -> u32
    ensures done { Did result (λ old new.
        Opens (icmp (endpoint.Ident ident) (rooms_in rooms.now)) socket.new old new)
        handle.old handle.new }
    ensures code { IsDueOrMemory (code_by opening_refusal (host_in handle.old)) result }
    ensures kept { result ≢ 0 → socket.new ≡ socket.old }
{
    let Some(mut host) = handle.take(alloc) else {
        return NO_HOST;
    };
    let done = host.open_icmp(icmp::Endpoint::Ident(ident), rooms.rooms());
    handle.put(host);
    match done {
        Ok(number) => {
            *socket = number;
            OK
        },
        Err(refusal) => code(refusal),
    }
}

/// Opens an ICMP socket for port unreachables for a UDP port of ours, and writes its number.
#[unsafe(no_mangle)]
pub extern "C" fn iface_icmp_open_port(
    handle: &mut Iface,
    alloc: Global,
    port: u16,
    rooms: &IfaceRooms,
    socket: &mut u32,
) -> u32
    ensures done { Did result
        (λ old new. Opens (icmp (endpoint.Udp port) (rooms_in rooms.now)) socket.new old new)
        handle.old handle.new }
    ensures code { IsDueOrMemory (code_by opening_refusal (host_in handle.old)) result }
    ensures kept { result ≢ 0 → socket.new ≡ socket.old }
{
    let Some(mut host) = handle.take(alloc) else {
        return NO_HOST;
    };
    let done = host.open_icmp(icmp::Endpoint::Udp(port), rooms.rooms());
    handle.put(host);
    match done {
        Ok(number) => {
            *socket = number;
            OK
        },
        Err(refusal) => code(refusal),
    }
}

/// Closes a socket.
#[unsafe(no_mangle)]
pub extern "C" fn iface_close(handle: &mut Iface, alloc: Global, socket: u32) -> u32
    ensures done { Did result (λ old new. Closes socket old new) handle.old handle.new }
    ensures code { result ≡ code_by (λ host. close_refusal host socket) (host_in handle.old) }
{
    let Some(mut host) = handle.take(alloc) else {
        return NO_HOST;
    };
    let done = host.close(socket);
    handle.put(host);
    match done {
        Ok(()) => OK,
        Err(refusal) => code(refusal),
    }
}
