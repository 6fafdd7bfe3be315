//! Hosts, and what they have sent.
ghost use Rattle.std.specs.Prelude.{◌≡◌, ◌<◌, ◌≤◌, ◌+◌, ◌^◌, ◌↔◌, ◌∷◌, [], map, length, min};
ghost use Rattle.std.specs.Prelude.{Some, None, Err, IfOk, OnOk, OnErr, IfErr, MatchOption};
ghost use Rattle.std.specs.Result.{IsErrOf};
ghost use Rattle.std.specs.VecDeque.{deque_len, deque_capacity};
ghost use Rattle.net_base.specs.Time.{IsMoment};
ghost use Rattle.host_machine.specs.Interface.Step.{IsTimely};
ghost use Rattle.network.specs.Network.{Acted, Runs, HandsOver, TakesIn, Forgets, NetworkGoes, NetworksJoin, host_taken};
ghost use Rattle.network.specs.Kept.{sent_of, wire_of};
ghost use Rattle.network.specs.Network.{frame_at, host_with_frame, network_of, transmission_at};
ghost use Rattle.network.specs.Laws.{AreRegular, NetworksKeepLaws};

use crate::transmission::{Kept, Transmission};
use host::drive::Owner;
use host::link::{Host, run};
use host_machine::{Answer, Command};
use net_base::PushError;
use net_base::phy::FRAME_BUFFER_SIZE;
use net_base::time::Instant;
use std::alloc::Global;
use thiserror::Error;

/// Why a call of a network did nothing. It is displayed as its name.
#[derive(Clone, Copy, Debug, PartialEq, Eq, Error)]
pub enum NetworkError {
    /// No host has this number.
    #[error("NoSuchHost")]
    NoSuchHost,
    /// The network keeps no frame of this number.
    #[error("NoSuchFrame")]
    NoSuchFrame,
    /// The frame has more than 1,514 octets.
    #[error("TooLong")]
    TooLong,
    /// There was no memory for a copy, or for what a host may send.
    #[error("NoMemory")]
    NoMemory,
}

/// Hosts on one medium, numbered from 0, and what they sent. It never changes a frame, and invents none.
///
/// What a host sends in one call is a transmission. Transmissions are numbered from 0, in the order of the calls. The
/// network keeps each of them until it is told to forget it.
#[derive(Drop)]
pub struct Network<'a, O> {
    hosts: Vec<Host<'a, O>>,
    kept: Kept,
}

/// Queues a copy of a frame for a host. Fails with `TooLong` exactly if it has more than 1,514 octets, and with
/// `NoMemory` if there is no memory for it. Both leave the host unchanged.
fn queue<O>(host: &mut Host<'_, O>, frame: &[u8]) -> Result<(), NetworkError>
    ensures ok { OnOk result (host.new ≡ host_with_frame host.old frame.now) }
    ensures same { OnErr result (host.new ≡ host.old) }
    ensures too_long { IsErrOf result NetworkError.TooLong ↔ 1514 < length frame.now }
    ensures host { IsErrOf result NetworkError.NoSuchHost → ⊥ }
    ensures frame { IsErrOf result NetworkError.NoSuchFrame → ⊥ }
{
    match host.device.push(frame) {
        Ok(()) => Ok(()),
        Err(PushError::TooLong) => Err(NetworkError::TooLong),
        Err(PushError::NoMemory) => Err(NetworkError::NoMemory),
    }
}

/// Runs a command on a host, and keeps what it sent as a transmission, unless it sent nothing.
fn act<O: Owner>(
    host: &mut Host<'_, O>,
    number: usize,
    kept: &mut Kept,
    command: &Command,
) -> Answer
    requires timely { IsTimely command.now }
    requires room { deque_len kept.old.transmissions < deque_capacity kept.old.transmissions }
    requires number { kept.old.forgotten + deque_len kept.old.transmissions + 1 < 2 ^ 64 }
    ensures acted { Acted O.did number command.now result host.old host.new (wire_of kept.old) (wire_of kept.new) }
    ensures forgotten { kept.new.forgotten ≡ kept.old.forgotten }
{
    let answer = run(host, command);
    kept.keep(number, host.device.take_sent());
    answer
}

impl<'a, O: Owner> Network<'a, O> {
    /// A network of these hosts, numbered in this order from 0. It keeps no transmission. It allocates nothing.
    ///
    /// What `networks_keep_laws` says is said of hosts in whose devices no frame is queued, and none waits that was sent.
    pub fn new(alloc: Global, hosts: Vec<Host<'a, O>>) -> Network<'a, O>
        ensures { network_of result ≡ record { hosts = hosts.entry.items; forgotten = 0; wire = [] } }
    {
        Network {
            hosts,
            kept: Kept::new(alloc),
        }
    }

    /// Gives the hosts back, by their numbers, as they are now. What the network keeps is dropped. A program may then add a
    /// socket to a host, and make a network of them again.
    pub fn into_hosts(self) -> Vec<Host<'a, O>>
        ensures { result.items ≡ (network_of self.entry).hosts }
    {
        let Network { hosts, kept: _ } = self;
        hosts
    }

    /// The hosts, by their numbers.
    pub fn hosts(&self) -> &[Host<'a, O>]
        ensures { result.now ≡ (network_of self.now).hosts }
    {
        &self.hosts
    }

    /// The number of transmissions that were forgotten: that of the first one that is kept, if there is one.
    pub fn forgotten(&self) -> usize
        ensures { result ≡ (network_of self.now).forgotten }
    {
        self.kept.forgotten
    }

    /// The number that the next transmission gets.
    pub fn next_number(&self) -> usize
        ensures { result ≡ (network_of self.now).forgotten + length (network_of self.now).wire }
    {
        self.kept.next_number()
    }

    /// A transmission by its number. `None` if there is none yet, or if it was forgotten.
    pub fn transmission(&self, number: usize) -> Option<&Transmission>
        ensures { MatchOption result (transmission_at (network_of self.now) number ≡ None)
            (λ t. transmission_at (network_of self.now) number ≡ Some (sent_of t.now)) }
    {
        self.kept.transmission(number)
    }

    /// A frame by the number of its transmission and its own number there, from 0. `None` if there is none.
    pub fn frame(&self, number: usize, k: usize) -> Option<&[u8]>
        ensures { MatchOption result (frame_at (network_of self.now) number k ≡ None)
            (λ frame. frame_at (network_of self.now) number k ≡ Some frame.now) }
    {
        self.kept.frame(number, k)
    }

    /// A host runs a command. What it sends becomes a transmission, and nothing is delivered to other hosts. It is one
    /// step of the host machine, from each state that the host stands for. Returns the command's answer.
    ///
    /// Fails with `NoSuchHost` exactly if no host has this number, and with `NoMemory` if memory for a transmission was
    /// refused. Both errors leave everything unchanged.
    pub fn run(&mut self, i: usize, command: &Command) -> Result<Answer, NetworkError>
        requires timely { IsTimely command.now }
        ensures done { IfOk result
            (λ answer. NetworkGoes O.did (Runs i command.now ∷ []) (answer ∷ []) (network_of self.old) (network_of self.new)) }
        ensures refused { OnErr result (network_of self.new ≡ network_of self.old) }
        ensures no_host { IsErrOf result NetworkError.NoSuchHost ↔ length (network_of self.old).hosts ≤ i }
        ensures frames { IsErrOf result NetworkError.NoSuchFrame → ⊥ }
    {
        if self.hosts.len() <= i {
            return Err(NetworkError::NoSuchHost);
        }
        self.kept.reserve().map_err(|_| NetworkError::NoMemory)?;
        Ok(act(&mut self.hosts[i], i, &mut self.kept, command))
    }

    /// A copy of a kept frame is queued for a host, which is then polled for one frame. What that host sends becomes a
    /// transmission. The frame stays, so that it may be delivered again or later. Returns the poll's answer.
    ///
    /// Fails with `NoSuchHost` exactly if no host has the number `to`; otherwise with `NoSuchFrame` exactly if the frame
    /// isn't kept; and with `NoMemory` if memory for the copy or for a transmission was refused. These errors leave
    /// everything unchanged.
    pub fn hand_over(
        &mut self,
        number: usize,
        k: usize,
        to: usize,
        timestamp: Instant,
    ) -> Result<Answer, NetworkError>
        requires timely { IsMoment timestamp }
        ensures done { IfOk result
            (λ answer. NetworkGoes O.did (HandsOver number k to timestamp ∷ []) (answer ∷ []) (network_of self.old) (network_of self.new)) }
        ensures refused { OnErr result (network_of self.new ≡ network_of self.old) }
        ensures no_host { IsErrOf result NetworkError.NoSuchHost ↔ length (network_of self.old).hosts ≤ to }
        ensures no_frame { IsErrOf result NetworkError.NoSuchFrame
            ↔ ((to < length (network_of self.old).hosts) × (frame_at (network_of self.old) number k ≡ None)) }
    {
        if self.hosts.len() <= to {
            return Err(NetworkError::NoSuchHost);
        }
        if self.kept.frame(number, k).is_none() {
            return Err(NetworkError::NoSuchFrame);
        }
        self.kept.reserve().map_err(|_| NetworkError::NoMemory)?;
        let Some(frame) = self.kept.frame(number, k) else {
            return Err(NetworkError::NoSuchFrame);
        };
        let receiver = &mut self.hosts[to];
        queue(receiver, frame)?;
        let poll = Command::PollIngressSingle(timestamp);
        Ok(act(receiver, to, &mut self.kept, &poll))
    }

    /// A frame from outside the network is queued for a host, which is then polled for one frame. What that host sends
    /// becomes a transmission. Returns the poll's answer. The law about what was sent doesn't hold of a network that
    /// takes in frames.
    ///
    /// Fails with `NoSuchHost` exactly if no host has the number `to`; otherwise with `TooLong` exactly if the frame has
    /// more than 1,514 octets; and with `NoMemory` if memory for the frame or for a transmission was refused. These
    /// errors leave everything unchanged.
    pub fn take_in(
        &mut self,
        frame: &[u8],
        to: usize,
        timestamp: Instant,
    ) -> Result<Answer, NetworkError>
        requires timely { IsMoment timestamp }
        ensures done { IfOk result (λ answer. NetworkGoes O.did (TakesIn frame.now to timestamp ∷ []) (answer ∷ [])
            (network_of self.old) (network_of self.new)) }
        ensures refused { OnErr result (network_of self.new ≡ network_of self.old) }
        ensures no_host { IsErrOf result NetworkError.NoSuchHost ↔ length (network_of self.old).hosts ≤ to }
        ensures too_long { IsErrOf result NetworkError.TooLong
            ↔ ((to < length (network_of self.old).hosts) × (1514 < length frame.now)) }
    {
        if self.hosts.len() <= to {
            return Err(NetworkError::NoSuchHost);
        }
        if frame.len() > FRAME_BUFFER_SIZE {
            return Err(NetworkError::TooLong);
        }
        self.kept.reserve().map_err(|_| NetworkError::NoMemory)?;
        let host = &mut self.hosts[to];
        queue(host, frame)?;
        let command = Command::PollIngressSingle(timestamp);
        Ok(act(host, to, &mut self.kept, &command))
    }

    /// Forgets the first `count` transmissions that are kept, or all if they are fewer. Those that stay keep their
    /// numbers. It allocates nothing.
    pub fn forget(&mut self, count: usize)
        ensures { NetworkGoes O.did (Forgets (min count (length (network_of self.old).wire)) ∷ []) [] (network_of self.old) (network_of self.new) }
    {
        self.kept.forget(count);
    }

    /// Each host that the network's interfaces stand for has hardware addresses of its medium, takes IP packets of 576
    /// octets, and has only pending fragments that are parts of packets.
    pub fn are_regular(&self)
        ensures { AreRegular (network_of self.now) }
    {
        for i in 0..self.hosts.len() {
            self.hosts[i].interface.is_on_its_medium();
        }
    }
}

/// Calls of a network one after another are one list of calls.
pub fn networks_join<O: Owner>()
    ensures { NetworksJoin O.did }
{}

/// Whatever is done with a network that was new, each host makes one run, which keeps the laws. Each frame that a host
/// received was sent by one of them. If all are on one medium, and no raw socket of theirs sends UDP, each datagram that
/// a UDP socket gets in a whole packet was sent by a UDP socket of one of them. Of datagrams in fragments it says
/// something only if the host received frames of one host alone.
pub fn networks_keep_laws<O: Owner>()
    ensures { NetworksKeepLaws O.did }
{}
