//! One connection (RFC 9293 3.3.1).
ghost use Rattle.std.specs.Prelude.{◌≡◌, ◌≤◌, ◌^◌, length, IfOk};
ghost use Rattle.tcp_connection.specs.Asked as asked;

use crate::opening::timers_at;
use crate::reception::Reception;
use crate::transmission::Transmission;
use std::alloc::{AllocError, Global};
use std::marker::Model;
use tcp_machine::congestion::Congestion;
use tcp_machine::estimator::Estimator;
use tcp_machine::settings::Settings;
use tcp_machine::state::State;
use tcp_machine::timers::{Ending, Pending, Timers};

/// The MSS of a connection before it is opened (RFC 9293 3.7.1).
const DEFAULT_MSS: u16 = 536;

/// A connection of TCP: what it sends and receives, its timers, and what the program chose.
///
/// It takes memory when it is made, and never later. Once it has ended, it can be opened again in the same memory.
/// Instants are in microseconds.
///
/// In contracts it is the machine's connection.
#[derive(Drop)]
pub struct Connection {
    pub(crate) state: State,
    pub(crate) is_active: bool,
    pub(crate) local: u32,
    pub(crate) remote: u32,
    pub(crate) settings: Settings,
    pub(crate) transmission: Transmission,
    pub(crate) reception: Reception,
    pub(crate) estimator: Estimator,
    pub(crate) congestion: Congestion,
    pub(crate) timers: Timers,
    pub(crate) pending: Pending,
    pub(crate) ending: Option<Ending>,
}

impl Model for Connection {
    ghost use Rattle.std.specs.Prelude.{◌≤◌};
    ghost use Rattle.tcp_machine.specs.Connection as machine;

    ghost Value = { machine.Connection };

    ghost view = { λ c. record {
      state = c.state;
      is_active = c.is_active;
      local = c.local;
      remote = c.remote;
      settings = c.settings;
      transmission = c.transmission;
      reception = c.reception;
      estimator = c.estimator;
      congestion = c.congestion;
      timers = c.timers;
      pending = c.pending;
      ending = c.ending;
    } };

    ghost invariant = { λ c. c.settings.own_scale ≤ 14 };
}

impl Connection {
    /// No connection yet, with room for so many octets that are sent and received, at most 2^30 each. It fails exactly if
    /// the memory is refused, which is twice that room.
    pub fn new(
        alloc: Global,
        send_room: usize,
        receive_room: usize,
        settings: &Settings,
    ) -> Result<Connection, AllocError>
        requires send { send_room ≤ 2 ^ 30 }
        requires receive { receive_room ≤ 2 ^ 30 }
        requires scale { settings.now.own_scale ≤ 14 }
        ensures { IfOk result (λ c. c ≡ asked.unopened send_room receive_room settings.now) }
    {
        Ok(Connection {
            state: State::Closed,
            is_active: true,
            local: 0,
            remote: 0,
            settings: *settings,
            transmission: Transmission::new(alloc, send_room, DEFAULT_MSS)?,
            reception: Reception::new(alloc, receive_room)?,
            estimator: Estimator::new(),
            congestion: Congestion::new(DEFAULT_MSS),
            timers: timers_at(0),
            pending: Pending::Empty,
            ending: None,
        })
    }
}
