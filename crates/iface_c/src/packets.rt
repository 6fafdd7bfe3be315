//! Packets that sockets send and receive.
ghost use Rattle.std.specs.Prelude.{◌≡◌, ◌≢◌, IsSomeAnd, drop};
ghost use Rattle.iface_c.specs.Addresses.{address_in, end_in};
ghost use Rattle.iface_c.specs.Calls.{Did};
ghost use Rattle.iface_c.specs.Handle.{host_in};
ghost use Rattle.iface_c.specs.Status.{code_by, code_with};
ghost use Rattle.iface_host.specs.Refusals as refusals;
ghost use Rattle.std.specs.Prelude.{length as len};
ghost use Rattle.iface_host.specs.Sockets.{ReceivesRaw, SendsIcmp, SendsRaw, SendsUdp};
ghost use Rattle.iface_c.specs.Packets.{PeeksIcmp, PeeksRaw, PeeksUdp, ReceivesIcmp, ReceivesUdp};

use crate::addresses::{IfaceAddress, IfaceEndpoint};
use crate::handle::Iface;
use crate::status::{BAD_ARGUMENT, NO_HOST, OK, code};
use std::alloc::Global;

/// Queues a datagram.
#[unsafe(no_mangle)]
pub extern "C" fn iface_udp_send(
    handle: &mut Iface,
    alloc: Global,
    socket: u32,
    remote: &IfaceEndpoint,
    payload: &[u8],
) -> u32
    ensures done { Did result (λ old new. IsSomeAnd (end_in remote.now)
        (λ end. SendsUdp socket end payload.now old new)) handle.old handle.new }
    ensures code { result ≡ code_with (λ end host. refusals.udp_unsent host socket end (len payload.now))
        (end_in remote.now) (host_in handle.old) }
{
    let Some(remote) = remote.end() else {
        return BAD_ARGUMENT;
    };
    let Some(mut host) = handle.take(alloc) else {
        return NO_HOST;
    };
    let done = host.send_udp(socket, remote, payload);
    handle.put(host);
    match done {
        Ok(()) => OK,
        Err(refusal) => code(refusal),
    }
}

/// Queues a message of ICMP.
#[unsafe(no_mangle)]
pub extern "C" fn iface_icmp_send(
    handle: &mut Iface,
    alloc: Global,
    socket: u32,
    remote: &IfaceAddress,
    message: &[u8],
) -> u32
    ensures done { Did result (λ old new. IsSomeAnd (address_in remote.now)
        (λ address. SendsIcmp socket address message.now old new)) handle.old handle.new }
    ensures code { result ≡ code_with (λ address host. refusals.icmp_unsent host socket address (len message.now))
        (address_in remote.now) (host_in handle.old) }
{
    let Some(remote) = remote.ip() else {
        return BAD_ARGUMENT;
    };
    let Some(mut host) = handle.take(alloc) else {
        return NO_HOST;
    };
    let done = host.send_icmp(socket, remote, message);
    handle.put(host);
    match done {
        Ok(()) => OK,
        Err(refusal) => code(refusal),
    }
}

/// Queues a packet.
#[unsafe(no_mangle)]
pub extern "C" fn iface_raw_send(
    handle: &mut Iface,
    alloc: Global,
    socket: u32,
    packet: &[u8],
) -> u32
    ensures done { Did result (λ old new. SendsRaw socket packet.now old new) handle.old handle.new }
    ensures code { result ≡ code_by (λ host. refusals.raw_unsent host socket (len packet.now)) (host_in handle.old) }
{
    let Some(mut host) = handle.take(alloc) else {
        return NO_HOST;
    };
    let done = host.send_raw(socket, packet);
    handle.put(host);
    match done {
        Ok(()) => OK,
        Err(refusal) => code(refusal),
    }
}

/// Takes the first datagram that came.
#[unsafe(no_mangle)]
pub extern "C" fn iface_udp_receive(
    handle: &mut Iface,
    alloc: Global,
    socket: u32,
    remote: &mut IfaceEndpoint,
    out: &mut [u8],
    length: &mut usize,
) -> u32
    ensures done { Did result
        (λ old new. ReceivesUdp socket remote.new length.new out.new old new) handle.old handle.new }
    ensures code { result ≡ code_by (λ host. refusals.udp_unreceived host socket (len out.old)) (host_in handle.old) }
    ensures kept { result ≢ 0 → (remote.new ≡ remote.old) × (out.new ≡ out.old) × (length.new ≡ length.old) }
    ensures behind { result ≡ 0 → drop length.new out.new ≡ drop length.new out.old }
{
    let Some(mut host) = handle.take(alloc) else {
        return NO_HOST;
    };
    let done = host.receive_udp(socket, out);
    handle.put(host);
    match done {
        Ok((from, len)) => {
            *remote = IfaceEndpoint::of(&from);
            *length = len;
            OK
        },
        Err(refusal) => code(refusal),
    }
}

/// Takes the first message of ICMP that came.
#[unsafe(no_mangle)]
pub extern "C" fn iface_icmp_receive(
    handle: &mut Iface,
    alloc: Global,
    socket: u32,
    remote: &mut IfaceAddress,
    out: &mut [u8],
    length: &mut usize,
) -> u32
    ensures done { Did result
        (λ old new. ReceivesIcmp socket remote.new length.new out.new old new) handle.old handle.new }
    ensures code { result ≡ code_by (λ host. refusals.icmp_unreceived host socket (len out.old)) (host_in handle.old) }
    ensures kept { result ≢ 0 → (remote.new ≡ remote.old) × (out.new ≡ out.old) × (length.new ≡ length.old) }
    ensures behind { result ≡ 0 → drop length.new out.new ≡ drop length.new out.old }
{
    let Some(mut host) = handle.take(alloc) else {
        return NO_HOST;
    };
    let done = host.receive_icmp(socket, out);
    handle.put(host);
    match done {
        Ok((from, len)) => {
            *remote = IfaceAddress::of(&from);
            *length = len;
            OK
        },
        Err(refusal) => code(refusal),
    }
}

/// Takes the first packet that came.
#[unsafe(no_mangle)]
pub extern "C" fn iface_raw_receive(
    handle: &mut Iface,
    alloc: Global,
    socket: u32,
    out: &mut [u8],
    length: &mut usize,
) -> u32
    ensures done { Did result (λ old new. ReceivesRaw socket length.new out.new old new) handle.old handle.new }
    ensures code { result ≡ code_by (λ host. refusals.raw_unreceived host socket (len out.old)) (host_in handle.old) }
    ensures kept { result ≢ 0 → (out.new ≡ out.old) × (length.new ≡ length.old) }
    ensures behind { result ≡ 0 → drop length.new out.new ≡ drop length.new out.old }
{
    let Some(mut host) = handle.take(alloc) else {
        return NO_HOST;
    };
    let done = host.receive_raw(socket, out);
    handle.put(host);
    match done {
        Ok(len) => {
            *length = len;
            OK
        },
        Err(refusal) => code(refusal),
    }
}

/// Writes the first datagram that came, which stays.
#[unsafe(no_mangle)]
pub extern "C" fn iface_udp_peek(
    handle: &mut Iface,
    alloc: Global,
    socket: u32,
    remote: &mut IfaceEndpoint,
    out: &mut [u8],
    length: &mut usize,
) -> u32
    ensures done { Did result
        (λ old new. PeeksUdp socket remote.new length.new out.new old new) handle.old handle.new }
    ensures code { result ≡ code_by (λ host. refusals.udp_unreceived host socket (len out.old)) (host_in handle.old) }
    ensures kept { result ≢ 0 → (remote.new ≡ remote.old) × (out.new ≡ out.old) × (length.new ≡ length.old) }
    ensures behind { result ≡ 0 → drop length.new out.new ≡ drop length.new out.old }
{
    let Some(host) = handle.take(alloc) else {
        return NO_HOST;
    };
    let done = host.peek_udp(socket, out);
    handle.put(host);
    match done {
        Ok((from, len)) => {
            *remote = IfaceEndpoint::of(&from);
            *length = len;
            OK
        },
        Err(refusal) => code(refusal),
    }
}

/// Writes the first message of ICMP that came, which stays.
#[unsafe(no_mangle)]
pub extern "C" fn iface_icmp_peek(
    handle: &mut Iface,
    alloc: Global,
    socket: u32,
    remote: &mut IfaceAddress,
    out: &mut [u8],
    length: &mut usize,
) -> u32
    ensures done { Did result
        (λ old new. PeeksIcmp socket remote.new length.new out.new old new) handle.old handle.new }
    ensures code { result ≡ code_by (λ host. refusals.icmp_unreceived host socket (len out.old)) (host_in handle.old) }
    ensures kept { result ≢ 0 → (remote.new ≡ remote.old) × (out.new ≡ out.old) × (length.new ≡ length.old) }
    ensures behind { result ≡ 0 → drop length.new out.new ≡ drop length.new out.old }
{
    let Some(host) = handle.take(alloc) else {
        return NO_HOST;
    };
    let done = host.peek_icmp(socket, out);
    handle.put(host);
    match done {
        Ok((from, len)) => {
            *remote = IfaceAddress::of(&from);
            *length = len;
            OK
        },
        Err(refusal) => code(refusal),
    }
}

/// Writes the first packet that came, which stays.
#[unsafe(no_mangle)]
pub extern "C" fn iface_raw_peek(
    handle: &mut Iface,
    alloc: Global,
    socket: u32,
    out: &mut [u8],
    length: &mut usize,
) -> u32
    ensures done { Did result (λ old new. PeeksRaw socket length.new out.new old new) handle.old handle.new }
    ensures code { result ≡ code_by (λ host. refusals.raw_unreceived host socket (len out.old)) (host_in handle.old) }
    ensures kept { result ≢ 0 → (out.new ≡ out.old) × (length.new ≡ length.old) }
    ensures behind { result ≡ 0 → drop length.new out.new ≡ drop length.new out.old }
{
    let Some(host) = handle.take(alloc) else {
        return NO_HOST;
    };
    let done = host.peek_raw(socket, out);
    handle.put(host);
    match done {
        Ok(len) => {
            *length = len;
            OK
        },
        Err(refusal) => code(refusal),
    }
}
