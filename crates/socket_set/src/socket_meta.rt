//! What an interface keeps for each socket: whether it waits for the next hop of its first packet.
ghost use Rattle.std.specs.Prelude.{◌≡◌, Bool, Some, None, is_some};
ghost use Rattle.net_base.specs.Time.{IsMoment, silence_from};
ghost use Rattle.socket_set.specs.Details.Alike.{alike_until};
ghost use Rattle.socket_set.specs.SocketMeta as spec;
ghost use Rattle.socket_set.specs.SocketMeta.{IsAnswerFor, after_asking, is_permitted};

use ip_wire::IpAddress;
use net_base::time::{Duration, Instant};
use sockets::PollAt;
use std::marker::Model;

// Whether a socket may be asked for packets.
#[derive(Clone, Copy, Debug, PartialEq, Eq)]
enum NeighborState {
    // It may.
    Active,
    // Not before the neighbor is known or the silence has ended.
    Waiting {
        neighbor: IpAddress,
        silent_until: Instant,
    },
}

/// Whether a socket waits, for the next hop to which destination, and until when. The default doesn't wait.
///
/// In contracts it is the destination and the moment, if it waits.
#[derive(Clone, Copy, Debug, PartialEq, Eq)]
pub struct Meta {
    neighbor_state: NeighborState,
}

impl Model for Meta {
    ghost use Rattle.socket_set.specs.SocketMeta.{Wait, wait_of, state_of, state_of-wait_of};
    ghost use Rattle.std.proofs.Common.{ap};

    ghost Value = { Wait };

    ghost view = { λ m. wait_of m.neighbor_state };

    ghost inverse = { λ w. record { neighbor_state = state_of w } };

    ghost inverse_ok = { λ m _. ap (λ s. record { neighbor_state = s }) (state_of-wait_of m.neighbor_state) };
}

impl Default for Meta {
    fn default() -> Meta
        ensures { result ≡ None }
    {
        Meta::ACTIVE
    }
}

impl Meta {
    // Doesn't wait.
    pub(crate) const ACTIVE: Meta = Meta {
        neighbor_state: NeighborState::Active,
    };

    /// How long a socket waits before it is asked again: a second, in microseconds.
    pub const DISCOVERY_SILENT_TIME: Duration = Duration { micros: 1_000_000 };

    // Whether it waits.
    #[inline(always)]
    pub(crate) fn is_waiting(&self) -> bool
        ensures { result ≡ is_some self.now }
    {
        match self.neighbor_state {
            NeighborState::Active => false,
            NeighborState::Waiting { .. } => true,
        }
    }

    // Until when it waits, if it waits for the destination that another one waits for, and this isn't over.
    #[inline(always)]
    pub(crate) fn waits_like(&self, other: &Meta, timestamp: Instant) -> Option<Instant>
        ensures { result ≡ alike_until self.now other.now timestamp }
    {
        match (&self.neighbor_state, &other.neighbor_state) {
            (
                NeighborState::Waiting {
                    neighbor,
                    silent_until,
                },
                NeighborState::Waiting {
                    neighbor: others,
                    ..
                },
            ) if timestamp < *silent_until && neighbor == others => Some(*silent_until),
            _ => None,
        }
    }

    /// Creates the value of a socket that waits for the next hop to a destination until an instant, or doesn't wait.
    pub(crate) fn of(wait: Option<(IpAddress, Instant)>) -> Meta
        ensures { result ≡ wait }
    {
        let neighbor_state = match wait {
            None => NeighborState::Active,
            Some((neighbor, silent_until)) => NeighborState::Waiting {
                neighbor,
                silent_until,
            },
        };
        Meta { neighbor_state }
    }

    /// Returns the destination whose next hop the socket waits for, and when it may be asked again; `None` if it
    /// doesn't wait. A wait whose end has passed stays recorded until its next hop is known or another wait begins.
    pub fn wait(&self) -> Option<(IpAddress, Instant)>
        ensures { result ≡ self.now }
    {
        match self.neighbor_state {
            NeighborState::Active => None,
            NeighborState::Waiting {
                neighbor,
                silent_until,
            } => Some((neighbor, silent_until)),
        }
    }

    // Whether it waits for the next hop to this destination, until this instant.
    #[inline(always)]
    pub(crate) fn is_wait(&self, destination: &IpAddress, until: Instant) -> bool
        ensures { result ≡ spec.is_wait destination.now until self.now }
    {
        match &self.neighbor_state {
            NeighborState::Active => false,
            NeighborState::Waiting {
                neighbor,
                silent_until,
            } => *silent_until == until && destination == neighbor,
        }
    }

    /// Returns when the socket wants to be asked for a packet, where `socket_poll_at` is its own answer: that, unless
    /// it has to wait, and then the end of the wait. `has_neighbor` says whether the next hop to a destination is
    /// known.
    pub fn poll_at<F: Fn(IpAddress) -> bool>(
        &self,
        socket_poll_at: PollAt,
        has_neighbor: F,
        timestamp: Instant,
    ) -> PollAt
        requires { F.IsAlwaysCallable has_neighbor }
        ensures { (known : Bool) × IsAnswerFor (F.post has_neighbor) self.now known
            × (result ≡ spec.poll_at self.now known timestamp socket_poll_at) }
    {
        match self.neighbor_state {
            NeighborState::Active => socket_poll_at,
            NeighborState::Waiting {
                neighbor,
                silent_until,
            } => {
                if has_neighbor(neighbor) || silent_until <= timestamp {
                    socket_poll_at
                } else {
                    PollAt::Time(silent_until)
                }
            }
        }
    }

    /// Whether the socket may be asked for a packet: it doesn't wait, or the next hop is known, which ends the wait, or
    /// the wait has passed. In the last case it stays recorded, so that a moment that goes back finds it again.
    pub fn egress_permitted<F: Fn(IpAddress) -> bool>(
        &mut self,
        timestamp: Instant,
        has_neighbor: F,
    ) -> bool
        requires { F.IsAlwaysCallable has_neighbor }
        ensures { (known : Bool) × IsAnswerFor (F.post has_neighbor) self.old known
            × (result ≡ is_permitted self.old known timestamp) × (self.new ≡ after_asking self.old known) }
    {
        let state = self.neighbor_state;
        match state {
            NeighborState::Active => true,
            NeighborState::Waiting {
                neighbor,
                silent_until,
            } => {
                if has_neighbor(neighbor) {
                    self.neighbor_state = NeighborState::Active;
                    return true;
                }
                timestamp >= silent_until
            }
        }
    }

    /// Lets the socket wait for the next hop to a destination, until 1 s after the moment.
    pub fn neighbor_missing(&mut self, timestamp: Instant, neighbor: IpAddress)
        requires { IsMoment timestamp }
        ensures { self.new ≡ Some (neighbor, silence_from timestamp) }
    {
        self.neighbor_state = NeighborState::Waiting {
            neighbor,
            silent_until: timestamp + Meta::DISCOVERY_SILENT_TIME,
        };
    }
}
