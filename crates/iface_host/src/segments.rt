//! Segments of TCP (RFC 9293), which sockets hand in and out. No connection is kept.
ghost use Rattle.std.specs.Prelude.{◌≡◌, IfOk, IfErr, OnOk, OnErr, None, Some, drop, length};
ghost use Rattle.std.specs.Result.{IsErrOf, result_err};
ghost use Rattle.iface_host.specs.Segments.{AbortsTcp, HoldsTcp, PeeksTcp, ReceivesTcp, SendsTcp};
ghost use Rattle.iface_host.specs.Segments.{abort_refusal, has_port_0, hold_refusal, is_to_nowhere, tcp};
ghost use Rattle.iface_host.specs.Segments.{tcp_opening_refusal, tcp_unreceived, tcp_unsent};
ghost use Rattle.iface_host.specs.Sockets.{Opens};

use crate::frames::moment;
use crate::host::IfaceHost;
use crate::opening::{Rooms, is_no_hosts, queues};
use crate::packets::write_first;
use crate::refusal::Refusal;
use sockets::{IpEndpoint, IpListenEndpoint, tcp};

impl IfaceHost {
    /// Opens a TCP socket for the segments to an end, from one remote end or, if none is given, from each. It names it.
    /// `BadPort` if a port is 0, else `BadAddress` if its own address is a group's or 255.255.255.255, or the remote
    /// one unspecified, else `TableFull` if no number is left, else `NoMemory` if memory for its queues is refused.
    pub fn open_tcp(
        &mut self,
        local: IpListenEndpoint,
        remote: Option<IpEndpoint>,
        rooms: Rooms,
    ) -> Result<u32, Refusal>
        ensures opened { IfOk result (λ n. Opens (tcp local remote rooms) n self.old self.new) }
        ensures why { (e : Refusal) → tcp_opening_refusal self.old local remote ≡ Some e → IsErrOf result e }
        ensures memory { tcp_opening_refusal self.old local remote ≡ None → IfErr result (λ e. e ≡ Refusal.NoMemory) }
        ensures refused { OnErr result (self.new ≡ self.old) }
    {
        if local.port == 0 || has_port_0(&remote) {
            return Err(Refusal::BadPort);
        }
        if is_no_hosts(&local.addr) || is_to_nowhere(&remote) {
            return Err(Refusal::BadAddress);
        }
        let number = self.unused_number()?;
        let (rx, tx) = queues(self.alloc, rooms)?;
        let socket: tcp::Socket<'static> = tcp::SocketOf::new(local, remote, rx, tx);
        self.add(number, socket)
    }

    /// Queues a segment with its payload. `BadPort` if its remote port is 0, `BadAddress` if its remote address is
    /// unspecified, `TooLong` if the packet would be longer than is sent, `NoSocket` if no TCP socket has this number,
    /// and else `QueueFull`.
    #[tactic(auto, using(crate::proofs::Places::tcp_full, crate::proofs::Places::host_same))]
    pub fn send_tcp(
        &mut self,
        number: u32,
        segment: tcp::Segment,
        payload: &[u8],
    ) -> Result<(), Refusal>
        ensures sent { OnOk result (SendsTcp number segment payload.now self.old self.new) }
        ensures why { result_err result ≡ tcp_unsent self.old number segment.remote (length payload.now) }
        ensures refused { OnErr result (self.new ≡ self.old) }
    {
        if segment.remote.port == 0 {
            return Err(Refusal::BadPort);
        }
        if segment.remote.addr.is_unspecified() {
            return Err(Refusal::BadAddress);
        }
        if !self.may_send(segment.remote.addr.version(), 20, payload) {
            return Err(Refusal::TooLong);
        }
        let Some(handle) = self.names.get(number) else {
            return Err(Refusal::NoSocket);
        };
        let Some(socket) = self.sockets.get_mut::<tcp::Socket<'static>>(handle) else {
            return Err(Refusal::NoSocket);
        };
        if socket.local().port == 0 {
            return Err(Refusal::BadPort);
        }
        if socket.send(segment, payload).is_err() {
            return Err(Refusal::QueueFull);
        }
        self.expect_packet(40 + payload.len());
        Ok(())
    }

    /// Takes the first segment that came: writes its payload to the front of a buffer, and tells its values and how
    /// long its payload is. It fails as [`IfaceHost::receive_udp`].
    #[tactic(auto, using(crate::proofs::Places::host_same))]
    pub fn receive_tcp(
        &mut self,
        number: u32,
        out: &mut [u8],
    ) -> Result<(tcp::Segment, usize), Refusal>
        ensures received { IfOk result (λ r. ReceivesTcp number r.0 r.1 out.new self.old self.new) }
        ensures behind { IfOk result (λ r. drop r.1 out.new ≡ drop r.1 out.old) }
        ensures why { result_err result ≡ tcp_unreceived self.old number (length out.old) }
        ensures refused { OnErr result (self.new ≡ self.old) }
        ensures out { OnErr result (out.new ≡ out.old) }
    {
        let Some(handle) = self.names.get(number) else {
            return Err(Refusal::NoSocket);
        };
        let Some(socket) = self.sockets.get_mut::<tcp::Socket<'static>>(handle) else {
            return Err(Refusal::NoSocket);
        };
        let first = write_first(socket.recv(), out)?;
        socket.done();
        Ok(first)
    }

    /// Writes the first segment that came as [`IfaceHost::receive_tcp`] does, and fails as it does. It stays.
    pub fn peek_tcp(&self, number: u32, out: &mut [u8]) -> Result<(tcp::Segment, usize), Refusal>
        ensures peeked { IfOk result (λ r. PeeksTcp number r.0 r.1 out.new self.now) }
        ensures behind { IfOk result (λ r. drop r.1 out.new ≡ drop r.1 out.old) }
        ensures why { result_err result ≡ tcp_unreceived self.now number (length out.old) }
        ensures out { OnErr result (out.new ≡ out.old) }
    {
        let Some(handle) = self.names.get(number) else {
            return Err(Refusal::NoSocket);
        };
        let Some(socket) = self.sockets.get::<tcp::Socket<'static>>(handle) else {
            return Err(Refusal::NoSocket);
        };
        write_first(socket.recv(), out)
    }

    /// Lets a TCP socket send nothing before a moment. `BadMoment` if the moment is out of range, else `NoSocket` if no
    /// TCP socket has this number.
    pub fn hold_tcp(&mut self, number: u32, until: i64) -> Result<(), Refusal>
        ensures held { OnOk result (HoldsTcp number until self.old self.new) }
        ensures why { result_err result ≡ hold_refusal self.old number until }
        ensures refused { OnErr result (self.new ≡ self.old) }
    {
        let until = moment(until)?;
        let Some(handle) = self.names.get(number) else {
            return Err(Refusal::NoSocket);
        };
        let Some(socket) = self.sockets.get_mut::<tcp::Socket<'static>>(handle) else {
            return Err(Refusal::NoSocket);
        };
        socket.hold_until(until);
        Ok(())
    }

    /// Lets a TCP socket get no segment from now on: each that it would have got is answered by a reset, unless it is
    /// one. What waits in its queues stays. `NoSocket` if no TCP socket has this number.
    pub fn abort_tcp(&mut self, number: u32) -> Result<(), Refusal>
        ensures aborted { OnOk result (AbortsTcp number self.old self.new) }
        ensures why { result_err result ≡ abort_refusal self.old number }
        ensures refused { OnErr result (self.new ≡ self.old) }
    {
        let Some(handle) = self.names.get(number) else {
            return Err(Refusal::NoSocket);
        };
        let Some(socket) = self.sockets.get_mut::<tcp::Socket<'static>>(handle) else {
            return Err(Refusal::NoSocket);
        };
        socket.abort();
        Ok(())
    }
}

/// Whether an end, if one is given, has port 0.
fn has_port_0(end: &Option<IpEndpoint>) -> bool
    ensures { result ≡ has_port_0 end.now }
{
    match end {
        Some(end) => end.port == 0,
        None => false,
    }
}

/// Whether an end, if one is given, has an unspecified address.
fn is_to_nowhere(end: &Option<IpEndpoint>) -> bool
    ensures { result ≡ is_to_nowhere end.now }
{
    match end {
        Some(end) => end.addr.is_unspecified(),
        None => false,
    }
}
