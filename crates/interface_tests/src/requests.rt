//! How far apart requests for neighbours are.

use interface::Command;
use net_base::phy::Device;
use net_base::time::Instant;
use scene::scene_host::{ETHERNET, OWN, SceneHost};
use std::alloc::Global;

// The moments of calls that send, in microseconds.
const MOMENTS: [u32; 4] = [5_000_000, 2_000_000, 5_999_999, 6_000_000];

// Whether two sockets that wait for neighbours bring requests a second apart, at these of the moments.
fn asks_spaced(alloc: Global, order: [usize; 4]) -> bool {
    let Ok(mut host) = SceneHost::new(alloc, OWN, ETHERNET) else {
        return false;
    };
    let is_ready = host.follows(
        "addr c0a84501/24
        udp 6969
        send 0 c0a84532 5000 6869
        udp 6969
        send 1 c0a84533 5000 6869",
    );
    let mut silent_until = 0;
    for place in order {
        let Some(micros) = MOMENTS.get(place) else {
            return false;
        };
        let sent = host.device.sent().len();
        let timestamp = Instant::from_micros(i64::from(*micros));
        let _ = host.run(Command::PollEgress(timestamp));
        let asked = host.device.sent().len().saturating_sub(sent);
        if asked == 0 {
            continue;
        }
        if *micros < silent_until || asked != 1 {
            return false;
        }
        silent_until = micros.saturating_add(1_000_000);
    }
    is_ready && silent_until != 0
}

/// Whether they are a second apart in each order that begins with these two moments.
fn asks_spaced_behind(alloc: Global, first: usize, second: usize) -> bool {
    for third in 0..4 {
        if first == second || first == third || second == third {
            continue;
        }
        let last = 6usize.saturating_sub(first.saturating_add(second).saturating_add(third));
        if !asks_spaced(alloc, [first, second, third, last]) {
            return false;
        }
    }
    true
}

// In whatever order the moments come, two requests are a second apart at least.
#[test]
fn asks_for_one_neighbor_a_second_in_any_order(rt: HostRuntime) {
    for first in 0..4 {
        for second in 0..4 {
            assert!(&rt;
                asks_spaced_behind(rt.alloc(), first, second),
                "{first}, {second}"
            );
        }
    }
}
