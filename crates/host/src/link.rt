//! Two hosts on a link that loses, repeats and reorders frames, but never changes one.
ghost use Rattle.std.specs.Prelude.{◌≡◌, [], ◌∷◌, Some, None, length, All, OnOk, OnErr, MatchOption};
ghost use Rattle.net_base.specs.Time.{IsMoment};
ghost use Rattle.host_machine.specs.Interface.Step.{IsTimely};
ghost use Rattle.net_base.specs.MemoryDevice.{Tells};
ghost use Rattle.interface.specs.Stands.{StandsFor};
ghost use Rattle.host.specs.Commands.{HostRefinesCommand};
ghost use Rattle.host.specs.Link.{IsTimelyStep, Goes, LinkGoes, Copies, HandsOver, IsThere, sent_since};

use crate::drive::{Owner, step};
use host_machine::{Answer, Command};
use interface::Interface;
use net_base::time::Instant;
use net_base::{MemoryDevice, PushError};
use socket_set::SocketSet;
use thiserror::Error;

/// One end of a link: a host over a device in memory.
#[derive(Drop)]
pub struct Host<'a, O> {
    /// The host's interface.
    pub interface: Interface,
    /// The device through which it receives and sends frames.
    pub device: MemoryDevice,
    /// The sockets that it serves.
    pub sockets: SocketSet<'a>,
    /// The user of these sockets.
    pub owner: O,
}

/// One step on a link between two hosts, A and B.
#[derive(Drop)]
pub enum LinkStep {
    /// Host A runs a command.
    A(Command),
    /// Host B runs a command.
    B(Command),
    /// A copy of a frame that B has sent since the link began is queued for A, by its number from 0, and A is polled
    /// for one frame at this moment. A number without a frame does nothing.
    ToA(usize, Instant),
    /// A copy of a frame that A has sent since the link began is queued for B, by its number from 0, and B is polled
    /// for one frame at this moment. A number without a frame does nothing.
    ToB(usize, Instant),
}

/// Why not all steps were done. It is displayed as its name.
#[derive(Clone, Copy, Debug, PartialEq, Eq, Error)]
pub enum LinkError {
    /// There was no memory for the copy that this step, counted from 0, had to queue.
    #[error("NoMemory")]
    NoMemory {
        /// The number of the step, from 0.
        step: usize,
    },
}

/// How many frames a device has sent.
fn frames_sent(device: &MemoryDevice) -> usize
    ensures { result ≡ length device.now.sent }
{
    device.sent().len()
}

/// A frame, by its number from 0, among those that a device has sent after its first `before` frames.
fn sent_since(device: &MemoryDevice, before: usize, k: usize) -> Option<&[u8]>
    ensures { MatchOption result (sent_since before device.now k ≡ None)
        (λ frame. sent_since before device.now k ≡ Some frame.now) }
{
    let frames = device.sent().get(before..)?;
    let frame = frames.get(k)?;
    Some(frame.as_slice())
}

/// Runs a command on one host: one step of the host machine, from each state that its interface and its sockets stand
/// for. It allocates nothing, apart from what its device and its owner allocate.
pub fn run<O: Owner>(host: &mut Host<'_, O>, command: &Command) -> Answer
    requires { IsTimely command.now }
    ensures { HostRefinesCommand Tells O.did host.old.device host.new.device host.old.owner host.new.owner command.now
        result (StandsFor host.old.interface host.old.sockets) (StandsFor host.new.interface host.new.sockets) }
{
    step(
        &mut host.interface,
        &mut host.device,
        &mut host.sockets,
        &mut host.owner,
        command,
    )
}

/// Queues a copy of a frame for a host, and polls that host for one frame. The frame is given by its number from 0
/// among those that a device has sent after its first `before` frames. Without such a frame nothing is done. If there
/// is no memory for the copy, nothing changes.
fn hand_over<O: Owner>(
    from: &MemoryDevice,
    before: usize,
    k: usize,
    to: &mut Host<'_, O>,
    timestamp: Instant,
) -> Result<(), PushError>
    requires { IsMoment timestamp }
    ensures done { OnOk result (HandsOver O.did before from.now k timestamp to.old to.new) }
    ensures same { OnErr result (to.new ≡ to.old) }
    ensures refused { OnErr result (IsThere before from.now k) }
{
    let Some(frame) = sent_since(from, before, k) else {
        return Ok(());
    };
    to.device.push(frame)?;
    run(to, &Command::PollIngressSingle(timestamp));
    Ok(())
}

/// Does one step; `sent_by_a` and `sent_by_b` are the numbers of frames that A and B had sent when the link began. If
/// there is no memory for a copy, nothing changes.
fn link_step<OA: Owner, OB: Owner>(
    a: &mut Host<'_, OA>,
    b: &mut Host<'_, OB>,
    sent_by_a: usize,
    sent_by_b: usize,
    step: &LinkStep,
) -> Result<(), PushError>
    requires { IsTimelyStep step.now }
    ensures done { OnOk result (Goes OA.did OB.did sent_by_a sent_by_b (step.now ∷ []) a.old a.new b.old b.new) }
    ensures same_a { OnErr result (a.new ≡ a.old) }
    ensures same_b { OnErr result (b.new ≡ b.old) }
    ensures refused { OnErr result (Copies sent_by_a sent_by_b step.now a.old.device b.old.device) }
{
    match step {
        LinkStep::A(command) => {
            run(a, command);
            Ok(())
        }
        LinkStep::B(command) => {
            run(b, command);
            Ok(())
        }
        LinkStep::ToA(k, timestamp) => hand_over(&b.device, sent_by_b, *k, a, *timestamp),
        LinkStep::ToB(k, timestamp) => hand_over(&a.device, sent_by_a, *k, b, *timestamp),
    }
}

/// Does the steps in order, on a link that loses the frames that no step delivers, and repeats and reorders frames as
/// the steps say. No frame may be queued in either device at the start. Each end performs a run of the host machine,
/// from each state that its interface and sockets stand for.
///
/// Each end receives only frames that the other sent meanwhile. Copies are delivered in the order in which they were
/// queued, each at most once. Each poll for a frame delivers the first in the queue, unless the device had no room,
/// which its refusal count shows. Frames not delivered stay queued.
///
/// Fails with `NoMemory` if memory for the copy of a step was refused: the steps before it are done, but not it and
/// those after it. Nothing else allocates, apart from what the devices allocate for frames they send, and what the
/// owners allocate.
pub fn link<OA: Owner, OB: Owner>(
    a: &mut Host<'_, OA>,
    b: &mut Host<'_, OB>,
    steps: &[LinkStep],
) -> Result<(), LinkError>
    requires a_waits { a.old.device.queued ≡ [] }
    requires b_waits { b.old.device.queued ≡ [] }
    requires timely { All IsTimelyStep steps.now }
    ensures { LinkGoes OA.did OB.did steps.now result a.old a.new b.old b.new }
{
    a.interface.is_on_its_medium();
    b.interface.is_on_its_medium();
    let sent_by_a = frames_sent(&a.device);
    let sent_by_b = frames_sent(&b.device);
    for i in 0..steps.len() {
        if link_step(a, b, sent_by_a, sent_by_b, &steps[i]).is_err() {
            return Err(LinkError::NoMemory { step: i });
        }
    }
    Ok(())
}
