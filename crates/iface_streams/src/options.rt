//! What a program chooses for its connections. Each call is refused, and changes nothing, if the handle names no connection:
//! `NoSocket`.
ghost use Rattle.std.specs.Prelude.{◌≡◌, ◌≢◌, OnOk, OnErr};
ghost use Rattle.std.specs.Result.{result_err};
ghost use Rattle.iface_streams.specs.Calls as spec;

use crate::streams::Streams;
use iface_host::Refusal;
use tcp_host::calls::Handle;

impl Streams {
    /// Short segments wait while something is unacknowledged, or don't (RFC 9293 3.7.4).
    pub fn set_nagle(&mut self, handle: Handle, enabled: bool) -> Result<(), Refusal>
        ensures set { OnOk result (spec.Sets handle (λ s. record s { nagle = enabled }) self.old self.new) }
        ensures why { result_err result ≡ spec.call_refusal handle self.old }
        ensures refused { OnErr result (self.new ≡ self.old) }
    {
        if !self.connections.is_named(handle) {
            return Err(Refusal::NoSocket);
        }
        let _ = self.connections.set_nagle_enabled(handle, enabled);
        Ok(())
    }

    /// How long an acknowledgement of octets in order may wait, in microseconds (RFC 9293 3.8.6.3).
    pub fn set_ack_delay(&mut self, handle: Handle, delay: u64) -> Result<(), Refusal>
        ensures set { OnOk result (spec.Sets handle (λ s. record s { ack_delay = delay }) self.old self.new) }
        ensures why { result_err result ≡ spec.call_refusal handle self.old }
        ensures refused { OnErr result (self.new ≡ self.old) }
    {
        if !self.connections.is_named(handle) {
            return Err(Refusal::NoSocket);
        }
        let _ = self.connections.set_ack_delay(handle, delay);
        Ok(())
    }

    /// How long nothing arrives before the peer is probed, in microseconds; `None` for never (RFC 9293 3.8.4).
    pub fn set_keep_alive(&mut self, handle: Handle, interval: Option<u64>) -> Result<(), Refusal>
        ensures set { OnOk result (spec.Sets handle (λ s. record s { keep_alive = interval }) self.old self.new) }
        ensures why { result_err result ≡ spec.call_refusal handle self.old }
        ensures refused { OnErr result (self.new ≡ self.old) }
    {
        if !self.connections.is_named(handle) {
            return Err(Refusal::NoSocket);
        }
        let _ = self.connections.set_keep_alive(handle, interval);
        Ok(())
    }

    /// How many routers its packets may pass, from the next one on (RFC 9293 3.9.2). Each connection begins with 64.
    pub fn set_hop_limit(&mut self, handle: Handle, hop_limit: u8) -> Result<(), Refusal>
        requires { hop_limit ≢ 0 }
        ensures set { OnOk result (spec.SetsHopLimit handle hop_limit self.old self.new) }
        ensures why { result_err result ≡ spec.call_refusal handle self.old }
        ensures refused { OnErr result (self.new ≡ self.old) }
    {
        if !self.connections.is_named(handle) {
            return Err(Refusal::NoSocket);
        }
        let _ = self.connections.set_hop_limit(handle, hop_limit);
        Ok(())
    }

    /// How long what was sent may stay unacknowledged, in microseconds; with `None` the number of tries decides (RFC 9293 3.8.3).
    pub fn set_timeout(&mut self, handle: Handle, timeout: Option<u64>) -> Result<(), Refusal>
        ensures set { OnOk result (spec.Sets handle (λ s. record s { timeout = timeout }) self.old self.new) }
        ensures why { result_err result ≡ spec.call_refusal handle self.old }
        ensures refused { OnErr result (self.new ≡ self.old) }
    {
        if !self.connections.is_named(handle) {
            return Err(Refusal::NoSocket);
        }
        let _ = self.connections.set_timeout(handle, timeout);
        Ok(())
    }
}
