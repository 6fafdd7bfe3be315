//! Packets that wait for a neighbour, and those that were given up.
ghost use Rattle.std.specs.Prelude.{◌≡◌, IfOk, OnErr, Some};
ghost use Rattle.std.specs.Result.{result_err};
ghost use Rattle.iface_host.specs.Names.{handle_named};
ghost use Rattle.iface_host.specs.Refusals.{close_refusal};
ghost use Rattle.iface_host.specs.Waits.{TellsGivenUp, TellsWaiting, given_up_refusal, waiting_refusal};

use crate::host::IfaceHost;
use crate::refusal::Refusal;
use egress_schedule::Waiting;
use ip_wire::IpAddress;
use socket_set::SocketHandle;

impl IfaceHost {
    /// For whom the first packet of a socket waits, since when, and when it is asked for again, as of the last round.
    /// `NoSocket` if the number names none, `Empty` if it doesn't wait.
    pub fn waiting(&self, number: u32) -> Result<Waiting, Refusal>
        ensures told { IfOk result (λ waiting. TellsWaiting number waiting self.now) }
        ensures why { result_err result ≡ waiting_refusal self.now number }
    {
        let handle = self.open_handle(number)?;
        match self.schedule.waiting(&self.sockets, handle) {
            Some(waiting) => Ok(waiting),
            None => Err(Refusal::Empty),
        }
    }

    /// The destination of the packet that a socket gave up last, since its neighbour didn't answer. It is told once.
    /// `NoSocket` if the number names none, `Empty` if none was given up since; then nothing changes.
    pub fn take_given_up(&mut self, number: u32) -> Result<IpAddress, Refusal>
        ensures told { IfOk result (λ given_up. TellsGivenUp number given_up self.old self.new) }
        ensures why { result_err result ≡ given_up_refusal self.old number }
        ensures refused { OnErr result (self.new ≡ self.old) }
    {
        let handle = self.open_handle(number)?;
        match self.schedule.take_given_up(handle) {
            Some(given_up) => Ok(given_up),
            None => Err(Refusal::Empty),
        }
    }

    /// How many packets of all sockets were given up.
    pub fn given_up(&self) -> u64
        ensures { result ≡ self.now.schedule.given_up }
    {
        self.schedule.given_up()
    }

    /// The handle of the socket that a number names.
    fn open_handle(&self, number: u32) -> Result<SocketHandle, Refusal>
        ensures named { IfOk result (λ handle. handle_named self.now.names number ≡ Some handle) }
        ensures why { result_err result ≡ close_refusal self.now number }
    {
        let Some(handle) = self.names.get(number) else {
            return Err(Refusal::NoSocket);
        };
        if self.sockets.is_open(handle) {
            Ok(handle)
        } else {
            Err(Refusal::NoSocket)
        }
    }
}
