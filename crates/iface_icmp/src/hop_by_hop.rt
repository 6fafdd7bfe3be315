//! How an interface processes IPv6 hop-by-hop options (RFC 8200 4.2, 4.3).
ghost use Rattle.std.specs.Prelude.{◌≡◌, [], None, if◌then◌else◌};
ghost use Rattle.host_machine.specs.Context.Host.{no_sockets};
ghost use Rattle.host_machine.specs.Icmp.HopByHop.{unknown_option};
ghost use Rattle.host_machine.specs.Receive.Response.{Responds};
ghost use Rattle.iface_context.specs.Refines.{RefinesBuilding};
ghost use Rattle.iface_context.specs.Stands.{host_of};

use crate::icmpv6::parameter_problem;
use control_wire::Icmpv6ParamProblem;
use iface_context::Context;
use ip_wire::emit::FrameBuffer;
use ip_wire::{Ipv6OptionFailureType, Ipv6Repr};

/// Builds the answer to a packet with an unrecognized option, in an empty buffer, by the two high bits of the option's
/// type. That is a parameter problem for 10, and for 11 unless the packet's destination is multicast.
pub fn answer_unknown_option(
    context: &mut Context,
    failure: Ipv6OptionFailureType,
    header: &Ipv6Repr,
    payload: &[u8],
    out: &mut FrameBuffer,
)
    requires { out.old ≡ [] }
    ensures { RefinesBuilding out.new
        (Responds (unknown_option failure (host_of context.old no_sockets).ip_addrs header.now payload.now))
        context.old context.new }
{
    let is_answered = match failure {
        Ipv6OptionFailureType::Skip | Ipv6OptionFailureType::Discard => false,
        Ipv6OptionFailureType::DiscardSendAll => true,
        Ipv6OptionFailureType::DiscardSendUnicast => !header.dst_addr.is_multicast(),
    };
    if is_answered {
        let reason = Icmpv6ParamProblem::UnrecognizedOption;
        parameter_problem(context, reason, header, payload, out);
    }
}
