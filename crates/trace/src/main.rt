//! Makes a trace from readable lines, and reads one back: `trace encode LINES TRACE`, `trace decode TRACE`.
//! What a line says, its bytes, and what is read of bytes is the crate `rows`'s; here files are read and written, piece by piece,
//! and what is wrong with one is said on standard error.

#![tactic(auto)]

mod decode;
mod encode;
mod fault;
mod lines;
#[cfg(test)]
mod tests;

use crate::decode::decode_file;
use crate::encode::Encoding;
use std::process::ExitCode;
use std::{env, fmt, io};

fn print_usage(rt: &HostRuntime) -> io::Result<()> {
    rt.println(
        "usage: trace encode LINES TRACE   makes the file TRACE from the readable lines in LINES",
    )?;
    rt.println("       trace decode TRACE         prints the readable lines of TRACE")?;
    rt.println(
        "A line is a gap in ticks, one space, and letters a to x or -, as 5 ab or 0 -; the last can be end.",
    )
}

fn misused(rt: &HostRuntime) -> anyhow::Result<ExitCode> {
    print_usage(rt)?;
    Ok(ExitCode::FAILURE)
}

/// Says on standard error what stopped the work, if something did, and gives the program's status.
fn ended<E: fmt::Display + Drop>(
    rt: &HostRuntime,
    work: Result<(), E>,
) -> anyhow::Result<ExitCode> {
    let Err(reason) = work else {
        return Ok(ExitCode::SUCCESS);
    };
    eprintln!(rt; "trace: {reason}")?;
    Ok(ExitCode::FAILURE)
}

/// Does what the words behind the program's name ask for.
fn obey(
    rt: &HostRuntime,
    verb: &str,
    first: Option<&str>,
    second: Option<&str>,
) -> anyhow::Result<ExitCode> {
    match (verb, first, second) {
        ("encode", Some(lines), Some(trace)) => {
            ended(rt, Encoding { lines, trace }.make_trace(rt))
        }
        ("decode", Some(trace), None) => decode_file(rt, trace),
        ("--help", None, None) => {
            print_usage(rt)?;
            Ok(ExitCode::SUCCESS)
        }
        _ => misused(rt),
    }
}

fn main(rt: HostRuntime) -> anyhow::Result<ExitCode> {
    let mut args = env::args(&rt)?;
    let _program = args.next();
    let verb = args.next();
    let first = args.next();
    let second = args.next();
    let more = args.next();
    match verb {
        Some(verb) if more.is_none() => {
            obey(&rt, verb.as_str(), first.as_deref(), second.as_deref())
        }
        _ => misused(&rt),
    }
}
