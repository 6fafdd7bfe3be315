//! What a host does for connections of TCP: it has their raw sockets, and lends its addresses and sockets for a poll.
ghost use Rattle.std.specs.Prelude.{◌≡◌, ◌+◌, ℕ, true, pos, IfOk, IsOk, OnOk, OnErr};
ghost use Rattle.std.specs.Result.{result_err};
ghost use Rattle.sockets.specs.declared.socket.SocketOf.TheVariants.{Raw};
ghost use Rattle.socket_set.specs.SocketSet.{first_free};
ghost use Rattle.std.specs.List.{count_by};
ghost use Rattle.std.specs.Option.{is_none};
ghost use Rattle.iface_host.specs.Refusals.{moment_refusal};
ghost use Rattle.iface_host.specs.Sockets.{Opens};
ghost use Rattle.iface_host.specs.Streams as spec;

use crate::host::IfaceHost;
use crate::refusal::Refusal;
use interface::Interface;
use ip_wire::IpAddress;
use net_base::phy::Checksum;
use socket_set::{SocketHandle, SocketSet, by_index};
use sockets::raw;
use tcp_host::host::TcpHost;
use tcp_sockets::{SocketPair, TcpSockets};

/// The two raw sockets of TCP of a family.
#[derive(Clone, Copy, Debug)]
pub struct StreamPair {
    /// The number of the one that receives, and sends to peers that have answered.
    pub near: u32,
    /// The number of the one for other peers.
    pub far: u32,
    /// Both as the connections know them.
    pub handles: SocketPair,
}

impl IfaceHost {
    /// Whether so many sockets more can be opened: numbers for them are left, and places.
    pub fn has_room_for(&self, count: usize) -> bool
        ensures { result ≡ spec.has_room_for count self.now }
    {
        self.names.len() as u64 <= 0x1_0000_0000
            && count <= self.names.count_unused()
            && count <= count_free(&self.sockets)
    }

    /// Opens the two raw sockets of a family, which were made before. There has to be room for two.
    #[tactic(auto, using(crate::proofs::Vacancies::one_of_two, crate::proofs::Vacancies::one_left, crate::proofs::Vacancies::two_less))]
    pub fn open_pair(
        &mut self,
        near: raw::Socket<'static>,
        far: raw::Socket<'static>,
    ) -> Result<StreamPair, Refusal>
        requires room { spec.has_room_for 2 self.old ≡ true }
        ensures done { IsOk result }
        ensures opened { IfOk result (λ pair. spec.OpensPair (Raw near.entry) (Raw far.entry) pair self.old self.new) }
        ensures left { (k : ℕ) → spec.has_room_for (k + 2) self.old ≡ true → spec.has_room_for k self.new ≡ true }
    {
        let (near, near_handle) = self.open_one(near)?;
        let (far, far_handle) = self.open_one(far)?;
        Ok(StreamPair {
            near,
            far,
            handles: SocketPair {
                near: near_handle,
                far: far_handle,
            },
        })
    }

    /// Opens a raw socket. There has to be room for it.
    #[tactic(auto, using(crate::proofs::Vacancies::never_refused))]
    fn open_one(&mut self, socket: raw::Socket<'static>) -> Result<(u32, SocketHandle), Refusal>
        requires room { spec.has_room_for 1 self.old ≡ true }
        ensures done { IsOk result }
        ensures opened { IfOk result (λ it. Opens (Raw socket.entry) it.0 self.old self.new) }
        ensures handle { IfOk result (λ it. it.1 ≡ first_free self.old.sockets.places) }
    {
        let number = self.unused_number()?;
        match self.sockets.add(socket) {
            Ok(handle) => {
                self.schedule.forget(handle);
                self.names.set(number as usize, Some(handle));
                Ok((number, handle))
            }
            Err(_) => Err(Refusal::TableFull),
        }
    }

    /// Polls connections at a moment, over the host's own addresses and sockets: they take what came to their raw sockets, and
    /// queue there what is due. `BadMoment` if the moment is out of range; then nothing changes.
    pub fn poll_streams(
        &mut self,
        now: i64,
        carrier: &mut TcpSockets,
        connections: &mut TcpHost,
    ) -> Result<(), Refusal>
        ensures polled { OnOk result
            (spec.PollsStreams now carrier.old carrier.new connections.old connections.new self.old self.new) }
        ensures why { result_err result ≡ moment_refusal now }
        ensures refused { OnErr result (self.new ≡ self.old) }
        ensures carrier { OnErr result (carrier.new ≡ carrier.old) }
        ensures connections { OnErr result (connections.new ≡ connections.old) }
    {
        let micros = micros_of(now)?;
        let interface: &Interface = &self.interface;
        carrier.poll_with_neighbors(
            micros,
            interface.ip_addrs(),
            |address: IpAddress| -> bool
                ensures { spec.IsKnownAt interface.entry.now address result }
            { interface.has_neighbor(&address) },
            connections,
            &mut self.sockets,
        );
        Ok(())
    }

    /// How many octets the longest packet of the link has.
    pub fn ip_mtu(&self) -> usize
        ensures { result ≡ self.now.ip_mtu }
    {
        self.ip_mtu
    }

    /// Which checksums of TCP it verifies and computes.
    pub fn tcp_checksum(&self) -> Checksum
        ensures { result ≡ self.now.outbox.capabilities.checksum.tcp }
    {
        self.outbox.capabilities().checksum.tcp
    }
}

/// The microseconds of a moment. `BadMoment` if it isn't one that a caller may give.
pub fn micros_of(now: i64) -> Result<u64, Refusal>
    ensures micros { IfOk result (λ micros. pos micros ≡ now) }
    ensures why { result_err result ≡ moment_refusal now }
{
    if now < 0 || now > 0x4000_0000_0000_0000 {
        return Err(Refusal::BadMoment);
    }
    Ok(now as u64)
}

/// How many places of a set have no socket.
#[tactic(auto, using(crate::proofs::Vacancies::counted_more, crate::proofs::Vacancies::counted_all, crate::proofs::Vacancies::at_most_one))]
fn count_free(sockets: &SocketSet<'static>) -> usize
    ensures { result ≡ count_by is_none sockets.now.places }
{
    let mut count = 0;
    for index in 0..by_index::places(sockets) {
        count += usize::from(by_index::socket(sockets, index).is_none());
    }
    count
}
