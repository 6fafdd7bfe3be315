//! What a client can conclude of the frames that a tracer kept.
ghost use Rattle.std.specs.Prelude.{◌≡◌, true, [], length, All};
ghost use Rattle.net_base.specs.Details.TracedEvents.{traced_events};
ghost use Rattle.host_machine.specs.Context.Host.{Host};
ghost use Rattle.host_machine.specs.Interface.Step.{IsTimely};
ghost use Rattle.interface.specs.Stands.{StandsFor};
ghost use Rattle.interface_client.specs.Logged.{LogsRun};

use host::Owner;
use host::drive::drive;
use host_laws::datagrams::runs_keep_queues;
use host_laws::laws::runs_keep_laws;
use host_machine::{Answer, Command};
use interface::{Interface, SocketSet};
use net_base::phy::{Device, Tracer};

/// Runs the commands over a traced device, whatever that is, and returns whether the tracer's list has all events. Then
/// the laws of runs hold of the frames in the list: discovery requests are a second apart, and the datagrams that UDP
/// sockets sent are among the frames, in order.
pub fn run_traced<D: Device, O: Owner>(
    interface: &mut Interface,
    device: &mut Tracer<D>,
    sockets: &mut SocketSet<'_>,
    owner: &mut O,
    commands: &[Command],
    answers: &mut [Answer],
) -> bool
    requires room { length answers.old ≡ length commands.now }
    requires timely { All IsTimely commands.now }
    requires empty { device.old.log.items ≡ [] }
    ensures complete { result ≡ device.new.is_complete }
    ensures logged { (H : Host) → StandsFor interface.old sockets.old H → result ≡ true →
        LogsRun H (StandsFor interface.new sockets.new) (traced_events device.new.log.items) }
{
    runs_keep_laws();
    runs_keep_queues();
    drive(interface, device, sockets, owner, commands, answers);
    device.is_complete
}
