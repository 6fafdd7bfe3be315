//! A simulation: what happens goes from event to event, and the network's proved hosts do the rest.
ghost use Rattle.net_base.specs.Time.{IsMoment};

use crate::hosts::Hosts;
pub use crate::medium::Form;
use crate::medium::Medium;
use crate::{plan, report, streams};
use anyhow::Result;
use net_base::time::Instant;
use simulation_script::script::Script;
use std::alloc::Global;
use std::io::Write;

/// A simulation.
#[derive(Drop)]
pub struct Simulation {
    pub(crate) alloc: Global,
    pub(crate) script: Script,
    pub(crate) medium: Medium,
    pub(crate) hosts: Hosts,
}

/// The instant at this many microseconds.
pub(crate) fn instant(micros: u64) -> Instant
    ensures { IsMoment result }
{
    Instant::from_micros(micros.min(1 << 62) as i64)
}

/// Runs a script to its end, and writes what happens.
pub fn run<W: Write>(alloc: Global, form: Form, script: Script, output: &mut W) -> Result<()> {
    let mut simulation = Simulation::new(alloc, form, script)?;
    simulation.play(output)
}

impl Simulation {
    /// A simulation in which nothing happened yet.
    fn new(alloc: Global, form: Form, script: Script) -> Result<Simulation> {
        let mut script = script;
        let mut medium = Medium::new(alloc, form, &script)?;
        plan::plan(alloc, &mut script, &mut medium.course)?;
        let hosts = Hosts::new(alloc, &script)?;
        Ok(Simulation {
            alloc,
            script,
            medium,
            hosts,
        })
    }

    /// Goes from event to event to the script's end, and writes what happens.
    fn play<W: Write>(&mut self, output: &mut W) -> Result<()> {
        self.medium.begin(&self.script, output)?;
        for _ in 0..u64::MAX {
            match self.medium.course.take_next(self.script.until) {
                Some(what) => self.happen(what, output)?,
                None => break,
            }
        }
        self.end(output)
    }

    /// Writes the tables, if they are wanted.
    fn end<W: Write>(&self, output: &mut W) -> Result<()> {
        if !self.medium.has_tables() {
            return Ok(());
        }
        let (script, hosts, counts) = (&self.script, self.hosts.all(), &self.medium.counts);
        report::print_traffic(output, script, hosts, counts)?;
        streams::print_streams(
            self.alloc,
            output,
            script,
            hosts,
            &self.medium.transmissions,
        )?;
        report::print_frames(output, script, hosts, counts)
    }
}
