//! A host over a device in memory. What is refused for want of memory is asked for again, so that each
//! script runs where any one request for memory is refused.
ghost use Rattle.std.specs.Prelude.{◌≡◌, length, All};
ghost use Rattle.host_machine.specs.Interface.Step.{IsTimely};

use host::drive::{Owner, drive};
use interface::{
    Answer, Command, Config, Interface, NewError, PollIngressSingleResult, PollResult,
};
use ip_wire::{EthernetAddress, HardwareAddress};
use net_base::phy::{ChecksumCapabilities, Device, DeviceCapabilities, Medium};
use net_base::time::Instant;
use net_base::{MemoryDevice, PushError};
use socket_set::{AddError, SocketSet};
use sockets::socket::AnySocketOf;
use std::alloc::Global;

/// 02:00:00:00:00:01.
pub const OWN: HardwareAddress = HardwareAddress::Ethernet(EthernetAddress([2, 0, 0, 0, 0, 1]));

// Of this seed the first identification is 7.
const SEED: u64 = 23_078;

/// An Ethernet device for frames of up to 1514 octets.
pub const ETHERNET: DeviceCapabilities = DeviceCapabilities {
    medium: Medium::Ethernet,
    max_transmission_unit: 1514,
    max_burst_size: None,
    checksum: ChecksumCapabilities::ALL,
};

/// A device without hardware addresses, for packets of up to 1500 octets.
pub const IP: DeviceCapabilities = DeviceCapabilities {
    medium: Medium::Ip,
    max_transmission_unit: 1500,
    max_burst_size: None,
    checksum: ChecksumCapabilities::ALL,
};

/// An owner that leaves the sockets alone, and keeps the number of its last turn.
#[derive(Drop)]
pub struct Idle {
    pub turns: usize,
    pub last: usize,
}

impl Owner for Idle {
    ghost use Rattle.std.specs.Prelude.{◌≡◌};

    ghost did = { λ owner number before after owner'. after ≡ before };

    fn act(&mut self, number: usize, _sockets: &mut SocketSet<'_>) {
        self.turns = self.turns.saturating_add(1);
        self.last = number;
    }
}

// The answers to questions for leave of which the last is refused, behind so many for which it is given.
fn refusal_after(alloc: Global, given: usize) -> Option<Vec<bool>> {
    let mut answers = Vec::new(alloc);
    for _ in 0..given {
        answers.push(false).ok()?;
    }
    answers.push(true).ok()?;
    Some(answers)
}

/// A host with its device and its sockets.
#[derive(Drop)]
pub struct SceneHost {
    pub alloc: Global,
    pub interface: Interface,
    pub device: MemoryDevice,
    pub sockets: SocketSet<'static>,
    pub owner: Idle,
    /// Whether the device has to refuse the next question for leave.
    pub refusing: bool,
    /// Whether each frame that was withheld for want of memory waited, and nothing was sent then.
    pub kept: bool,
}

impl SceneHost {
    ghost use Rattle.std.specs.Prelude.{◌≡◌, length, All};
    ghost use Rattle.host_machine.specs.Interface.Step.{IsTimely};

    /// A host without addresses and sockets. The first packet that it sends has identification 7.
    pub fn new(
        alloc: Global,
        hardware_addr: HardwareAddress,
        capabilities: DeviceCapabilities,
    ) -> Result<SceneHost, NewError> {
        SceneHost::with_config(alloc, Config::new(hardware_addr), capabilities)
    }

    /// A host that takes addresses from routers.
    pub fn with_slaac(
        alloc: Global,
        hardware_addr: HardwareAddress,
        capabilities: DeviceCapabilities,
    ) -> Result<SceneHost, NewError> {
        let config = Config {
            slaac: true,
            ..Config::new(hardware_addr)
        };
        SceneHost::with_config(alloc, config, capabilities)
    }

    fn with_config(
        alloc: Global,
        config: Config,
        capabilities: DeviceCapabilities,
    ) -> Result<SceneHost, NewError> {
        let mut device = MemoryDevice::new(alloc, capabilities);
        let config = Config {
            random_seed: SEED,
            ..config
        };
        let interface = Interface::new(config, &mut device, Instant::ZERO)?;
        Ok(SceneHost {
            alloc,
            interface,
            device,
            sockets: SocketSet::new(Vec::new(alloc)),
            owner: Idle { turns: 0, last: 0 },
            refusing: false,
            kept: true,
        })
    }

    /// Runs commands, once.
    pub fn run_all(&mut self, commands: &[Command], answers: &mut [Answer])
        requires room { length answers.old ≡ length commands.now }
        requires timely { All IsTimely commands.now }
    {
        drive(
            &mut self.interface,
            &mut self.device,
            &mut self.sockets,
            &mut self.owner,
            commands,
            answers,
        );
    }

    // Runs one command, once.
    fn run_once(&mut self, commands: &[Command; 1]) -> Answer
        requires { All IsTimely commands.now }
    {
        let mut answers = [Answer::Owner];
        self.run_all(commands, &mut answers);
        answers[0]
    }

    /// Runs a command. If the device refused for want of memory it runs again: what has changed by then
    /// is the answer. A frame that was withheld has to wait for that, and nothing may have been sent.
    pub fn run(&mut self, command: Command) -> Answer
        requires { IsTimely command }
    {
        let commands = [command];
        let refusals = self.device.refusals();
        let queued = self.device.queued();
        let sent = self.device.sent().len();
        let answer = self.run_once(&commands);
        if self.refusing || self.device.refusals() == refusals {
            return answer;
        }
        let is_same = self.device.queued() == queued && self.device.sent().len() == sent;
        let again = self.run_once(&commands);
        match answer {
            Answer::PollIngressSingle(result) => {
                self.kept &= is_same && result == PollIngressSingleResult::None;
                again
            }
            Answer::PollEgress(PollResult::None) | Answer::Poll(PollResult::None) => again,
            _ => answer,
        }
    }

    /// Lets a frame arrive. Refused memory changes nothing.
    pub fn queue(&mut self, frame: &[u8]) -> Option<()> {
        let queued = self.device.queued();
        match self.device.push(frame) {
            Err(PushError::NoMemory) if self.device.queued() == queued => {
                self.device.push(frame).ok()
            }
            outcome => outcome.ok(),
        }
    }

    /// Lets the device refuse one question for leave, behind so many for which it is given.
    pub fn refuse_after(&mut self, given: usize) -> Option<()> {
        let answers = match refusal_after(self.alloc, given) {
            Some(answers) => answers,
            None => refusal_after(self.alloc, given)?,
        };
        self.device.refuse(answers);
        self.refusing = true;
        Some(())
    }

    /// Adds a socket.
    pub fn add<T: AnySocketOf<&'static ()>>(&mut self, socket: T) -> Option<()> {
        match self.sockets.add(socket) {
            Ok(_) => Some(()),
            Err(AddError::Full(_)) => None,
            Err(AddError::NoMemory(socket)) => match self.sockets.add(socket) {
                Ok(_) => Some(()),
                Err(_) => None,
            },
        }
    }
}
