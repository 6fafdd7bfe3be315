//! What a script plans before anything happens.

use crate::advertisement;
use crate::agenda::What;
use crate::course::Course;
use anyhow::Result;
use simulation_script::script::{OutsideFrame, Pace, Script};
use std::alloc::Global;

/// Plans what a script says: that hosts begin, what they send, frames from outside, that groups are left, and that routers
/// advertise at once, whose frames are added to those of the script.
pub(crate) fn plan(alloc: Global, script: &mut Script, course: &mut Course) -> Result<()> {
    for host in 0..script.hosts.len() {
        course.plan(0, What::Begins(host))?;
    }
    let mut tasks = vec![in alloc; 0_usize; script.hosts.len()]?;
    plan_tasks(script, &mut tasks, course)?;
    plan_frames(script, course)?;
    plan_leaves(script, course)?;
    plan_routers(alloc, script, course)
}

/// Plans the tasks of hosts: the first datagrams of flows, the first echo requests, and packets. Those of one host are
/// numbered in this order.
fn plan_tasks(script: &Script, tasks: &mut Vec<usize>, course: &mut Course) -> Result<()> {
    for flow in script.flows.iter() {
        plan_first(next_task(tasks, flow.host), &flow.pace, course)?;
    }
    for ping in script.pings.iter() {
        plan_first(next_task(tasks, ping.host), &ping.pace, course)?;
    }
    for packet in script.packets.iter() {
        course.plan(packet.at, next_task(tasks, packet.host))?;
    }
    Ok(())
}

/// Plans the first of what is sent at a pace, if there is one.
fn plan_first(what: What, pace: &Pace, course: &mut Course) -> Result<()> {
    if pace.count == 0 {
        return Ok(());
    }
    course.plan(pace.start, what)
}

/// A host does its next task.
fn next_task(tasks: &mut Vec<usize>, host: usize) -> What {
    let mut task = 0;
    if let Some(next) = tasks.get_mut(host) {
        task = *next;
        *next = task.saturating_add(1);
    }
    What::Does { host, task }
}

/// Plans when frames come from outside.
fn plan_frames(script: &Script, course: &mut Course) -> Result<()> {
    for (i, frame) in script.frames.iter().enumerate() {
        if let Some(time) = frame.at {
            course.plan(time, What::Comes(i))?;
        }
    }
    Ok(())
}

/// Plans when groups are left.
fn plan_leaves(script: &Script, course: &mut Course) -> Result<()> {
    for (i, leave) in script.leaves.iter().enumerate() {
        course.plan(leave.at, What::Leaves(i))?;
    }
    Ok(())
}

/// Makes what routers send, and plans that each advertises at once.
fn plan_routers(alloc: Global, script: &mut Script, course: &mut Course) -> Result<()> {
    for router in 0..script.routers.len() {
        let frame = script.frames.len();
        add_frame(alloc, script, router)?;
        course.add_router(router, frame)?;
    }
    Ok(())
}

/// Adds the frame by which a router advertises to the frames of its script.
fn add_frame(alloc: Global, script: &mut Script, router: usize) -> Result<()> {
    let Some(line) = script.routers.get(router).copied() else {
        return Ok(());
    };
    let octets = advertisement::frame_of(alloc, script, &line)?;
    script.frames.push(OutsideFrame {
        at: None,
        from: Some(line.host),
        octets,
    })?;
    Ok(())
}
