//! The raw sockets of a host of connections.
ghost use Rattle.std.specs.Prelude.{◌≡◌, [], IfOk};
ghost use Rattle.ip_address.specs.declared.protocol.IpProtocol.TheVariants as protocol;

use crate::destinations::FAR_PACKETS;
use ip_wire::{IpProtocol, IpVersion};
use sockets::queue::{NoMemory, Queue};
use sockets::raw;
use std::alloc::Global;

/// A raw socket of TCP with room for so many packets and octets each way. It fails exactly if the memory is refused.
pub fn near_socket<L: Drop>(
    alloc: Global,
    version: IpVersion,
    packets: usize,
    octets: usize,
) -> Result<raw::SocketOf<L>, NoMemory>
    ensures { IfOk result (λ s. s ≡ record {
      version = version;
      protocol = protocol.Tcp;
      rx = record { packets = []; most = packets; limit = octets };
      tx = record { packets = []; most = packets; limit = octets };
    }) }
{
    let rx = Queue::new(alloc, packets, octets)?;
    let tx = Queue::new(alloc, packets, octets)?;
    Ok(raw::SocketOf::new(version, IpProtocol::Tcp, rx, tx))
}

/// A raw socket of TCP that receives nothing, and sends at most 16 packets at a time with so many octets together.
pub fn far_socket<L: Drop>(
    alloc: Global,
    version: IpVersion,
    octets: usize,
) -> Result<raw::SocketOf<L>, NoMemory>
    ensures { IfOk result (λ s. s ≡ record {
      version = version;
      protocol = protocol.Tcp;
      rx = record { packets = []; most = 0; limit = 0 };
      tx = record { packets = []; most = 16; limit = octets };
    }) }
{
    let rx = Queue::new(alloc, 0, 0)?;
    let tx = Queue::new(alloc, FAR_PACKETS, octets)?;
    Ok(raw::SocketOf::new(version, IpProtocol::Tcp, rx, tx))
}
