//! Lists of commands, with turns of the sockets' owner among them.

use interface::{Answer, Command, PollIngressSingleResult};
use net_base::phy::Device;
use net_base::time::Instant;
use scene::frames::frame;
use scene::scene_host::{ETHERNET, OWN, SceneHost};
use scene::words::networks;

const NOTHING: Answer = Answer::PollIngressSingle(PollIngressSingleResult::None);

const TAKEN: Answer = Answer::PollIngressSingle(PollIngressSingleResult::SocketStateChanged);

// A frame that was withheld for want of memory is taken by the second poll.
#[test]
fn runs_commands_in_order(rt: HostRuntime) {
    let mut host = SceneHost::new(rt.alloc(), OWN, ETHERNET).expect(&rt, "a host");
    let request = frame("REQUEST").expect(&rt, "a frame");
    host.queue(request.as_slice()).expect(&rt, "room");
    let home = networks(&mut "c0a84501/24".split_whitespace()).expect(&rt, "a network");
    let commands = [
        Command::Owner(7),
        Command::UpdateIpAddrs(home),
        Command::PollIngressSingle(Instant::ZERO),
        Command::PollIngressSingle(Instant::ZERO),
        Command::Owner(9),
    ];
    let mut answers = [NOTHING; 5];
    host.run_all(&commands, &mut answers);
    let (first, second) = match host.device.refusals() {
        0 => (TAKEN, NOTHING),
        _ => (NOTHING, TAKEN),
    };
    let set = Answer::UpdateIpAddrs(Ok(()));
    assert_eq!(rt; answers, [Answer::Owner, set, first, second, Answer::Owner]);
    assert_eq!(rt; (host.owner.turns, host.owner.last), (2, 9));
    let reply = frame("REPLY").expect(&rt, "a frame");
    let is_reply = match host.device.sent() {
        [sent] => sent.as_slice() == reply.as_slice(),
        _ => false,
    };
    assert!(rt; is_reply);
}
