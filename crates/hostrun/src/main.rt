//! `hostrun` runs a host from a script: it reads commands from standard input, one a line, and
//! prints the frames that the host sends and what each command answers (crate `script`,
//! `docs/SIMULATE.md`).
//!
//! With arguments it compares what scripts print with the expected output. Each argument names a case, which is two files of
//! the folder that the program runs in. `NAME.txt` is a script; `NAME.out` is what it must print, on standard output and then
//! on the error stream. `NAME.txt` may have several scripts, separated by lines `---`, each of which gets a host of its own;
//! their expected output is separated by such lines too. The argument `-` runs the script of standard input.
//!
//! Each case gets a line; if the output differs, the first line that differs follows, as printed and as expected. The
//! exit status is that of the first script of standard input that ends early, or 1 if a case doesn't match, otherwise 0.
#![tactic(auto)]

use anyhow::{Context, Result};
use script::run::run;
use std::alloc::Global;
use std::fmt::{self, Display, Formatter, Write};
use std::process::ExitCode;
use std::{env, fs};

/// The separator between two scripts. The first line feed belongs to it, so that a script can end without.
const PARTING: &str = "\n---\n";

/// The first line that differs. After the end of a text there are empty lines.
#[derive(Clone, Copy)]
struct Difference<'a> {
    /// Its number, counted from 1.
    number: u64,
    came: &'a str,
    had_to_come: &'a str,
}

impl Display for Difference<'_> {
    fn fmt<W: Write>(&self, f: &mut Formatter<W>) -> fmt::Result {
        writeln!(f, "line {}", self.number)?;
        writeln!(f, "came: {}", self.came)?;
        write!(f, "had to come: {}", self.had_to_come)
    }
}

fn main(rt: HostRuntime) -> Result<ExitCode> {
    let Ok(words) = env::args(&rt) else {
        eprintln!(rt; "out of memory")?;
        return Ok(ExitCode::from(3));
    };
    let mut words = words.skip(1);
    let mut status = match words.next() {
        Some(word) => status_of(&rt, word.as_str())?,
        None => run_input(&rt),
    };
    for word in words {
        status = first_other(status, status_of(&rt, word.as_str())?);
    }
    Ok(ExitCode::from(status))
}

/// The first of two statuses, unless it is 0.
fn first_other(first: u8, second: u8) -> u8 {
    if first == 0 { second } else { first }
}

/// Runs what an argument names, and returns its exit status.
fn status_of(rt: &HostRuntime, word: &str) -> Result<u8> {
    match word {
        "-" => Ok(run_input(rt)),
        _ => compare(rt, word),
    }
}

/// Runs the script of standard input, and returns its exit status.
fn run_input(rt: &HostRuntime) -> u8 {
    run(
        rt.alloc(),
        &mut rt.stdin(),
        &mut rt.stdout(),
        &mut rt.stderr(),
    )
}

/// Compares what the scripts of a case print with what they have to print, and tells of it. Returns 1 if it differs, otherwise
/// 0.
fn compare(rt: &HostRuntime, name: &str) -> Result<u8> {
    let came = output_of(rt, name)?;
    let had_to_come = text_of(rt, format!(in rt.alloc(); "{name}.out")?)?;
    match first_difference(&came, &had_to_come) {
        None => {
            println!(rt; "{name}: as it has to be")?;
            Ok(0)
        }
        Some(difference) => {
            println!(rt; "{name}: {difference}")?;
            Ok(1)
        }
    }
}

/// The output of the scripts of a case.
fn output_of(rt: &HostRuntime, name: &str) -> Result<String> {
    let scripts = text_of(rt, format!(in rt.alloc(); "{name}.txt")?)?;
    printed(rt.alloc(), &scripts)
}

/// The contents of a file. An error names the file.
fn text_of(rt: &HostRuntime, path: String) -> Result<String> {
    fs::read_to_string(rt, path.as_str()).context(path)
}

/// The output of scripts, each on standard output and then on the error stream.
fn printed(alloc: Global, scripts: &str) -> Result<String> {
    let mut output = Vec::new(alloc);
    for (number, script) in scripts.split(PARTING).enumerate() {
        print(alloc, number, script, &mut output)?;
    }
    Ok(String::from_utf8(output)?)
}

/// Adds the output of the script of this number.
fn print(alloc: Global, number: usize, script: &str, output: &mut Vec<u8>) -> Result<()> {
    if number != 0 {
        output.extend_from_slice(b"---\n")?;
    }
    let mut errors = Vec::new(alloc);
    run(alloc, &mut script.as_bytes(), output, &mut errors);
    output.extend_from_slice(&errors)?;
    Ok(())
}

/// The first line in which a text differs from the expected one.
fn first_difference<'a>(came: &'a str, had_to_come: &'a str) -> Option<Difference<'a>> {
    let mut came = came.split('\n');
    let mut had_to_come = had_to_come.split('\n');
    for number in 1..u64::MAX {
        let (line, wanted) = (came.next(), had_to_come.next());
        if line != wanted {
            return Some(Difference {
                number,
                came: line.unwrap_or(""),
                had_to_come: wanted.unwrap_or(""),
            });
        }
        if line.is_none() {
            break;
        }
    }
    None
}
