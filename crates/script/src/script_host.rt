//! The host that a script runs.
ghost use Rattle.std.specs.Prelude.{◌≡◌, OnOk, OnErr, Some, IfErr};
ghost use Rattle.host_machine.specs.Interface.Config.{refusal_of};
ghost use Rattle.net_base.specs.Time.{IsMoment};
ghost use Rattle.socket_set.specs.SocketSet.{set_after_add};
ghost use Rattle.sockets.specs.declared.socket.SocketOf.TheVariants.{Udp};
ghost use Rattle.script.specs.Sockets.{listening_socket};

use crate::line::Call;
use host::drive::{Owner, drive};
use interface::{Answer, Config, Interface, NewError};
use ip_wire::{EthernetAddress, HardwareAddress};
use net_base::MemoryDevice;
use net_base::phy::{ChecksumCapabilities, Device, DeviceCapabilities, Medium};
use net_base::time::Instant;
use socket_set::SocketSet;
use sockets::{IpListenEndpoint, NoMemory, Queue, udp};
use std::alloc::Global;

/// The host's Ethernet address.
const HARDWARE_ADDR: HardwareAddress = HardwareAddress::Ethernet(EthernetAddress([
    0x02, 0, 0, 0, 0, 0x01,
]));

/// The host's device.
const CAPABILITIES: DeviceCapabilities = DeviceCapabilities {
    medium: Medium::Ethernet,
    max_transmission_unit: 1514,
    max_burst_size: None,
    checksum: ChecksumCapabilities::ALL,
};

/// The maximum number of packets in a queue of a socket.
const QUEUE_PACKETS: usize = 4;

/// The maximum number of octets in a queue of a socket.
const QUEUE_OCTETS: usize = 4096;

/// An owner that does nothing with the sockets.
#[derive(Drop)]
pub struct Idle;

impl Owner for Idle {
    ghost use Rattle.std.specs.Prelude.{◌≡◌};

    ghost did = { λ owner number before after owner'. after ≡ before };

    fn act(&mut self, _number: usize, _sockets: &mut SocketSet<'_>) {}
}

/// Adds a UDP socket that listens at a port of any address. If memory is refused, the set stays unchanged.
fn add_udp(alloc: Global, sockets: &mut SocketSet<'_>, port: u16) -> Result<(), NoMemory>
    ensures ok { OnOk result (sockets.new ≡ set_after_add sockets.old (Udp (listening_socket port)) sockets.new.room) }
    ensures err { OnErr result (sockets.new ≡ sockets.old) }
{
    let endpoint = IpListenEndpoint { addr: None, port };
    let rx = Queue::new(alloc, QUEUE_PACKETS, QUEUE_OCTETS)?;
    let tx = Queue::new(alloc, QUEUE_PACKETS, QUEUE_OCTETS)?;
    let socket: udp::Socket<'_> = udp::SocketOf::new(endpoint, rx, tx);
    match sockets.add(socket) {
        Ok(_) => Ok(()),
        Err(_) => Err(NoMemory),
    }
}

/// An interface with its device and its sockets.
#[derive(Drop)]
pub struct ScriptHost<'a> {
    alloc: Global,
    pub(crate) interface: Interface,
    pub device: MemoryDevice,
    pub(crate) sockets: SocketSet<'a>,
    pub(crate) owner: Idle,
    /// The moment last given by a call, 0 at first.
    pub moment: Instant,
    ghost timely: { IsMoment moment },
}

impl<'a> ScriptHost<'a> {
    ghost use Rattle.std.specs.Prelude.{◌≡◌};
    ghost use Rattle.script.specs.Commands.{IsTimelyCall, moment_after};
    ghost use Rattle.script.specs.Runs.{RunsCall};

    /// Creates a host without addresses and sockets, unless its device and its hardware address don't match.
    pub fn new(alloc: Global) -> Result<ScriptHost<'a>, NewError>
        ensures { IfErr result (λ error. refusal_of CAPABILITIES HARDWARE_ADDR ≡ Some error) }
    {
        let mut device = MemoryDevice::new(alloc, CAPABILITIES);
        let config = Config::new(HARDWARE_ADDR);
        let interface = Interface::new(config, &mut device, Instant::ZERO)?;
        Ok(ScriptHost {
            alloc,
            interface,
            device,
            sockets: SocketSet::new(Vec::new(alloc)),
            owner: Idle,
            moment: Instant::ZERO,
        })
    }

    /// Adds a UDP socket that listens at a port of any address. Fails if memory is refused.
    pub fn add_udp(&mut self, port: u16) -> Result<(), NoMemory> {
        add_udp(self.alloc, &mut self.sockets, port)
    }

    /// Makes a call, as one command of the host machine, and returns the machine's answer. The owner of the sockets does
    /// nothing.
    pub fn run(&mut self, call: Call) -> Answer
        requires { IsTimelyCall call }
        ensures moment { self.new.moment ≡ moment_after self.old.moment call }
        ensures runs { RunsCall call result self.old self.new }
    {
        self.moment = call.moment(self.moment);
        let command = call.command(self.moment);
        let mut answers = [Answer::Owner];
        drive(
            &mut self.interface,
            &mut self.device,
            &mut self.sockets,
            &mut self.owner,
            &[command],
            &mut answers,
        );
        answers[0]
    }
}
