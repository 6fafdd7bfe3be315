//! What waits in the queues of sockets.
ghost use Rattle.std.specs.Prelude.{◌≡◌, ◌≢◌, min};
ghost use Rattle.iface_c.specs.Calls.{Did};
ghost use Rattle.iface_c.specs.Handle.{host_in};
ghost use Rattle.iface_c.specs.Queues.{ShowsQueues, fill_for_c};
ghost use Rattle.iface_c.specs.Status.{code_by};
ghost use Rattle.iface_host.specs.Queues.{queues_refusal};

use crate::handle::Iface;
use crate::status::{NO_HOST, NO_SOCKET, OK};
use iface_host::Fill;
use std::alloc::Global;

/// What waits in a queue, and what it holds at most.
#[repr(C)]
#[derive(Drop)]
pub struct IfaceQueue {
    /// How many packets wait.
    pub packets: u32,
    /// How many octets they have together.
    pub octets: u32,
    /// How many packets it holds at most.
    pub most_packets: u32,
    /// How many octets they have together at most.
    pub most_octets: u32,
    /// How many octets the first packet has.
    pub first: u32,
}

impl IfaceQueue {
    /// What waits in a queue as C reads it.
    fn of(fill: &Fill) -> IfaceQueue
        ensures { result ≡ fill_for_c fill.now }
    {
        IfaceQueue {
            packets: at_most_u32(fill.packets),
            octets: at_most_u32(fill.octets),
            most_packets: at_most_u32(fill.most_packets),
            most_octets: at_most_u32(fill.most_octets),
            first: at_most_u32(fill.first),
        }
    }
}

/// Writes what waits in the two queues of a socket.
#[unsafe(no_mangle)]
pub extern "C" fn iface_queues(
    handle: &mut Iface,
    alloc: Global,
    socket: u32,
    received: &mut IfaceQueue,
    to_send: &mut IfaceQueue,
) -> u32
    ensures done { Did result
        (λ old new. ShowsQueues socket received.new to_send.new old new) handle.old handle.new }
    ensures code { result ≡ code_by (λ host. queues_refusal host socket) (host_in handle.old) }
    ensures kept { result ≢ 0 → (received.new ≡ received.old) × (to_send.new ≡ to_send.old) }
{
    let Some(host) = handle.take(alloc) else {
        return NO_HOST;
    };
    let found = host.queues(socket);
    handle.put(host);
    match found {
        Some((rx, tx)) => {
            *received = IfaceQueue::of(&rx);
            *to_send = IfaceQueue::of(&tx);
            OK
        }
        None => NO_SOCKET,
    }
}

/// A number, or the greatest one of 32 bits where it is greater.
fn at_most_u32(number: usize) -> u32
    ensures { result ≡ min number 4294967295 }
{
    number.min(u32::MAX as usize) as u32
}
