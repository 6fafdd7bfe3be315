//! What the client does whenever its owner calls it.
ghost use Rattle.std.specs.Prelude.{◌≡◌, IfOk, OnErr, is_some};
ghost use Rattle.std.specs.Result.{result_err};
ghost use Rattle.dhcp_client.specs.Messages as messages;
ghost use Rattle.iface_dhcp.specs.Dhcp.{word};
ghost use Rattle.iface_dhcp.specs.Poll as spec;
ghost use Rattle.iface_host.specs.Refusals.{kind_at};
ghost use Rattle.sockets.specs.Kinds.{down_udp};

use crate::dhcp::Dhcp;
use dhcp_client::{DhcpEvent, DhcpMessage};
use iface_host::streams::micros_of;
use iface_host::{IfaceHost, Refusal};

impl Dhcp {
    /// Does what is due at a moment: hands the client what came to its sockets, queues the message that is to be sent now, if
    /// there is one, tests the address of the lease, and returns what has become of that since the last call, if it has changed. `BadMoment` if the moment
    /// is out of range, else `NoSocket` if the host doesn't have the client's socket; then nothing changes.
    ///
    /// A message that can't be queued counts as lost, and is sent again later.
    pub fn poll(&mut self, host: &mut IfaceHost, now: i64) -> Result<Option<DhcpEvent>, Refusal>
        ensures polled { IfOk result (λ event. spec.Polls now event self.old self.new host.old host.new) }
        ensures why { result_err result ≡ spec.poll_refusal now self.old.socket host.old }
        ensures refused { OnErr result (self.new ≡ self.old) }
        ensures host { OnErr result (host.new ≡ host.old) }
    {
        let micros = micros_of(now)?;
        let count = waiting_at(host, self.socket)?;
        self.hear(host, count);
        self.overhear(host);
        self.close_sent(host);
        self.send_next(host, micros);
        self.test(host, micros);
        Ok(self.take_event())
    }

    /// Queues the message that is to be sent at an instant, if there is one.
    fn send_next(&mut self, host: &mut IfaceHost, now: u64)
        ensures { spec.SendsNext now self.old self.new host.old host.new }
    {
        if let Some(message) = self.next_message(now) {
            self.send(host, &message);
        }
    }

    /// The message that is to be sent at an instant, if there is one. A random number is drawn for each.
    fn next_message(&mut self, now: u64) -> Option<DhcpMessage>
        ensures message { result ≡ messages.message_at now (word self.old) self.old.client }
        ensures dhcp { self.new ≡ spec.after_asking now self.old }
    {
        let mut random = self.random;
        let word = random.rand_u32();
        let message = self.client.next_message(now, word)?;
        self.random = random;
        Some(message)
    }
}

/// How many datagrams wait at a UDP socket. `NoSocket` if the host has no UDP socket of this number.
fn waiting_at(host: &IfaceHost, number: u32) -> Result<usize, Refusal>
    ensures count { IfOk result (λ count. spec.IsWaiting number count host.now) }
    ensures why { result_err result ≡ spec.socket_refusal host.now number }
{
    if !is_there(host, number) {
        return Err(Refusal::NoSocket);
    }
    match host.queues(number) {
        Some((received, _)) => Ok(received.packets),
        None => Err(Refusal::NoSocket),
    }
}

/// Whether the host has a UDP socket of this number.
fn is_there(host: &IfaceHost, number: u32) -> bool
    ensures { result ≡ is_some (kind_at down_udp host.now number) }
{
    let mut nothing = [0u8; 0];
    match host.peek_udp(number, &mut nothing) {
        Ok(_) => true,
        Err(refusal) => !is_no_socket(&refusal),
    }
}

/// Whether a refusal is for want of a socket.
fn is_no_socket(refusal: &Refusal) -> bool
    ensures { result ≡ spec.is_no_socket refusal.now }
{
    match refusal {
        Refusal::NoSocket => true,
        _ => false,
    }
}
