//! What is to happen, by its time.

use crate::link::Passage;
use anyhow::Result;
use std::alloc::Global;
use std::cmp::Reverse;
use std::collections::BinaryHeap;

/// What happens.
#[derive(Clone, Copy, PartialEq, Eq, PartialOrd, Ord)]
pub enum What {
    /// A host joins its groups, and is polled.
    Begins(usize),
    /// A host is polled, if it is still to be polled at this time.
    Wakes(usize),
    /// A host's owner does one of its tasks.
    Does {
        /// The number of the host.
        host: usize,
        /// The number of the task.
        task: usize,
    },
    /// A copy of a frame arrives.
    Arrives {
        /// The number of the transmission.
        number: usize,
        /// The number of the frame in it.
        k: usize,
        /// How it comes.
        passage: Passage,
    },
    /// A copy of a frame from outside arrives.
    Enters {
        /// The number of the frame in the script.
        frame: usize,
        /// How it comes.
        passage: Passage,
    },
    /// A frame from outside is sent.
    Comes(usize),
    /// A router advertises, and will do so again.
    Advertises(usize),
    /// A router advertises, as it was solicited.
    IsSolicited(usize),
    /// A host leaves a group, by the number of the line.
    Leaves(usize),
}

/// What happens, and when. Of two events at one time the one that was planned first comes first.
#[derive(Clone, Copy, PartialEq, Eq, PartialOrd, Ord)]
pub struct Event {
    /// When, in microseconds.
    pub time: u64,
    order: u64,
    /// What.
    pub what: What,
}

/// Events that are to happen.
#[derive(Drop)]
pub struct Agenda {
    events: BinaryHeap<Reverse<Event>>,
    planned: u64,
}

impl Agenda {
    /// Nothing is to happen.
    pub fn new(alloc: Global) -> Agenda {
        Agenda {
            events: BinaryHeap::new(alloc),
            planned: 0,
        }
    }

    /// Plans an event.
    pub fn plan(&mut self, time: u64, what: What) -> Result<()> {
        let order = self.planned;
        self.planned = self.planned.saturating_add(1);
        self.events.push(Reverse(Event { time, order, what }))?;
        Ok(())
    }

    /// Takes the first event.
    pub fn take_first(&mut self) -> Option<Event> {
        match self.events.pop() {
            Some(Reverse(event)) => Some(event),
            None => None,
        }
    }
}
