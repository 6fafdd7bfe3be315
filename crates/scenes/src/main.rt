//! Plays scenes of a host: scripts that say what is done with it and what has to come of it.
//!
//! Each argument names a file of the folder that the program runs in, `NAME.txt`. Without arguments the program reads
//! scenes from standard input. A line `scene NAME` begins a scene, and the lines after it are how its host comes to be.
//! Each line `script` begins a script of the scene, which is followed on a host of its own, after those lines. Lines
//! that begin with `#`, and empty ones, are passed over. The crate `scene` tells what a line says. Scripts of a scene
//! that begins with `scene again` are followed once more if they come otherwise: where there is no memory for a report,
//! it is given up, or goes after what has to come later.
//!
//! Each file gets a line with the count of its scripts. A script that comes otherwise gets one too, and then the exit
//! status is 1, otherwise 0.
#![tactic(auto)]

use anyhow::{Context, Result};
use scene::script::{Outcome, play};
use std::alloc::Global;
use std::process::ExitCode;
use std::{env, fs, io};

/// A scene, as far as it has been read.
#[derive(Drop)]
struct Scene<'t> {
    name: &'t str,
    is_played_again: bool,
    begins: Vec<&'t str>,
    /// The script that is read, if one has begun.
    script: Option<Vec<&'t str>>,
}

/// How many scripts of a file were played, and how many of them came otherwise.
#[derive(Clone, Copy)]
struct Count {
    played: u64,
    otherwise: u64,
}

fn main(rt: HostRuntime) -> Result<ExitCode> {
    let alloc = rt.alloc();
    let mut status = ExitCode::SUCCESS;
    let mut is_named = false;
    for name in env::args(&rt)?.skip(1) {
        is_named = true;
        let path = format!(in alloc; "{name}.txt")?;
        let text = fs::read_to_string(&rt, path.as_str()).context(path)?;
        if !plays_well(&rt, name.as_str(), &text)? {
            status = ExitCode::FAILURE;
        }
    }
    if !is_named {
        let text = io::read_to_string(alloc, rt.reader())?;
        if !plays_well(&rt, "standard input", &text)? {
            status = ExitCode::FAILURE;
        }
    }
    Ok(status)
}

/// Plays the scenes of a text, prints what came of them, and returns whether all came as they say.
fn plays_well(rt: &HostRuntime, name: &str, text: &str) -> Result<bool> {
    let mut count = Count {
        played: 0,
        otherwise: 0,
    };
    let mut scene = Scene {
        name: "",
        is_played_again: false,
        begins: Vec::new(rt.alloc()),
        script: None,
    };
    for line in text.lines() {
        let line = line.trim();
        if line.is_empty() || line.starts_with('#') {
            continue;
        }
        if let Some(title) = line.strip_prefix("scene ") {
            scene.finish(rt, &mut count)?;
            scene = Scene::titled(rt.alloc(), title);
        } else if line == "script" {
            scene.finish(rt, &mut count)?;
            scene.script = Some(Vec::new(rt.alloc()));
        } else {
            scene.read(line)?;
        }
    }
    scene.finish(rt, &mut count)?;
    println!(rt;
        "{name}: {} scripts, {} came otherwise",
        count.played, count.otherwise
    )?;
    Ok(count.otherwise == 0)
}

impl<'t> Scene<'t> {
    /// The scene of a title, of which nothing more has been read.
    fn titled(alloc: Global, title: &'t str) -> Scene<'t> {
        let again = title.strip_prefix("again ");
        Scene {
            name: again.unwrap_or(title),
            is_played_again: again.is_some(),
            begins: Vec::new(alloc),
            script: None,
        }
    }

    /// Adds a line to the script that is read, or else to how the host comes to be.
    fn read(&mut self, line: &'t str) -> Result<()> {
        match &mut self.script {
            Some(script) => script.push(line)?,
            None => self.begins.push(line)?,
        }
        Ok(())
    }

    /// Plays the script that was read, if there is one, and prints its scene if it comes otherwise.
    fn finish(&mut self, rt: &HostRuntime, count: &mut Count) -> Result<()> {
        let Some(script) = self.script.take() else {
            return Ok(());
        };
        count.played = count.played.saturating_add(1);
        let outcome = self.outcome(rt.alloc(), script.as_slice());
        match outcome {
            Outcome::AsSaid => return Ok(()),
            Outcome::Otherwise(line) => {
                println!(rt; "{}: came otherwise, or can't be read: {line}", self.name)?;
            }
            Outcome::FrameLeft => println!(rt; "{}: a frame waits, or was lost", self.name)?,
        }
        count.otherwise = count.otherwise.saturating_add(1);
        Ok(())
    }

    /// What comes of a script of the scene, at the second time if the first one may come otherwise.
    fn outcome(&self, alloc: Global, script: &[&'t str]) -> Outcome<'t> {
        let outcome = play(alloc, self.begins.as_slice(), script);
        if self.is_played_again && outcome != Outcome::AsSaid {
            return play(alloc, self.begins.as_slice(), script);
        }
        outcome
    }
}
