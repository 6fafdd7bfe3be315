//! `simulate` runs hosts on Ethernets that lose, repeat, reorder, delay and change frames. It reads a script from
//! standard input, and prints the datagrams that sockets get and tables of what was sent (crate `simulator`,
//! `docs/SIMULATE.md`).
//!
//! The argument `chart` adds a line for each copy of a frame. With `tables` only the tables are printed. With `pcap` the
//! output is a capture of all frames that were sent, and nothing else.
//!
//! After the argument `compare` each one names a case, which is two files of the folder that the program runs in:
//! `NAME.txt` is a script, and `NAME.out` is what it must print as a chart. Each case gets a line; if the output
//! differs, what was printed follows. The exit status is 0 if all cases match, otherwise 1.
#![tactic(auto)]

use anyhow::{Context, Result, bail};
use simulation_script::line::script_in;
use simulator::simulation::{Form, run};
use std::alloc::Global;
use std::io::{self, BufWriter, Write};
use std::process::ExitCode;
use std::{env, fs};

fn main(rt: HostRuntime) -> Result<ExitCode> {
    let form = match env::args(&rt)?.nth(1) {
        None => Form::Report,
        Some(word) => match word.as_str() {
            "chart" => Form::Chart,
            "tables" => Form::Tables,
            "pcap" => Form::Capture,
            "compare" => return compare(&rt),
            _ => bail!("{word} is none of chart, tables, pcap, compare"),
        },
    };
    let text = io::read_to_string(rt.alloc(), rt.reader())?;
    let mut output = BufWriter::new(rt.alloc(), rt.stdout())?;
    print(rt.alloc(), form, &text, &mut output)?;
    output.flush()?;
    Ok(ExitCode::SUCCESS)
}

/// Compares what the scripts that the arguments name print with what they must print.
fn compare(rt: &HostRuntime) -> Result<ExitCode> {
    let mut status = ExitCode::SUCCESS;
    for name in env::args(rt)?.skip(2) {
        let script = text_of(rt, format!(in rt.alloc(); "{name}.txt")?)?;
        let expected = text_of(rt, format!(in rt.alloc(); "{name}.out")?)?;
        let mut output = Vec::new(rt.alloc());
        print(rt.alloc(), Form::Chart, &script, &mut output)?;
        let printed = String::from_utf8(output)?;
        if printed.as_str() == expected.as_str() {
            println!(rt; "{name}: as it has to be")?;
        } else {
            println!(rt; "{name}: it printed\n{printed}")?;
            status = ExitCode::FAILURE;
        }
    }
    Ok(status)
}

/// Runs a script, and prints what happens in it.
fn print<W: Write>(alloc: Global, form: Form, text: &str, output: &mut W) -> Result<()> {
    let script = script_in(alloc, text)?;
    run(alloc, form, script, output)
}

/// The contents of a file. An error names the file.
fn text_of(rt: &HostRuntime, path: String) -> Result<String> {
    fs::read_to_string(rt, path.as_str()).context(path)
}
