//! The hop limits of sockets.
ghost use Rattle.std.specs.Prelude.{◌≡◌, ◌≢◌, OnOk, OnErr};
ghost use Rattle.std.specs.Result.{result_err};
ghost use Rattle.iface_host.specs.HopLimits.{SetsHopLimit, hop_limit_at, hop_limit_refusal};

use crate::host::IfaceHost;
use crate::refusal::Refusal;
use sockets::{SocketOf, icmp, tcp, udp};

impl IfaceHost {
    /// Sets the hop limit of the packets that a socket sends from now on, those that wait among them. It must not be 0.
    /// `NoSocket` if the number names none, or a raw one, whose packets have their own headers.
    pub fn set_hop_limit(&mut self, number: u32, hop_limit: u8) -> Result<(), Refusal>
        requires { hop_limit ≢ 0 }
        ensures set { OnOk result (SetsHopLimit number hop_limit self.old self.new) }
        ensures why { result_err result ≡ hop_limit_refusal self.old number }
        ensures refused { OnErr result (self.new ≡ self.old) }
    {
        let Some(handle) = self.names.get(number) else {
            return Err(Refusal::NoSocket);
        };
        if let Some(socket) = self.sockets.get_mut::<udp::Socket<'static>>(handle) {
            socket.set_hop_limit(hop_limit);
            return Ok(());
        }
        if let Some(socket) = self.sockets.get_mut::<tcp::Socket<'static>>(handle) {
            socket.set_hop_limit(hop_limit);
            return Ok(());
        }
        let Some(socket) = self.sockets.get_mut::<icmp::Socket<'static>>(handle) else {
            return Err(Refusal::NoSocket);
        };
        socket.set_hop_limit(hop_limit);
        Ok(())
    }

    /// The hop limit of the packets that a socket sends. `None` if the number names none, or a raw one.
    pub fn hop_limit(&self, number: u32) -> Option<u8>
        ensures { result ≡ hop_limit_at self.now number }
    {
        match self.socket_named(number)? {
            SocketOf::Udp(socket) => Some(socket.hop_limit()),
            SocketOf::Icmp(socket) => Some(socket.hop_limit()),
            SocketOf::Tcp(socket) => Some(socket.hop_limit()),
            SocketOf::Raw(_) => None,
        }
    }
}
