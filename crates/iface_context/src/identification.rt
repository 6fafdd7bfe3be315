//! The identifications of packets (RFC 791 3.2).
ghost use Rattle.std.specs.Prelude.{◌≡◌};
ghost use Rattle.host_machine.specs.Context.Host.{SocketSet, no_sockets, with_next_id};
ghost use Rattle.iface_context.specs.Stands.{host_of};

use crate::context::Context;

/// The identification of the next packet. The one after it is next then.
#[inline(always)]
pub fn take_id(context: &mut Context) -> u16
    ensures value { result ≡ (host_of context.old no_sockets).ipv4_id }
    ensures taken { (sockets : SocketSet) → host_of context.new sockets ≡ with_next_id (host_of context.old sockets) }
{
    let identification = context.ipv4_id;
    context.ipv4_id = identification.wrapping_add(1);
    identification
}
