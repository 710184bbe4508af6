//! Watches the samples of a trace by a book of terms, and prints where each clause broke: `terms [TERMS [TRACE]]`.
//! What it prints is the crate `report`'s; here files are read, and what a STOP means is said on standard error.

#![tactic(auto)]

mod expected;
mod files;
mod stop;
#[cfg(test)]
mod tests;

use crate::files::Input;
use crate::stop::Stop;
use report::{Page, Run};
use std::io::Write;
use std::process::ExitCode;
use std::{env, io};
use stream::Refusal;

const TERMS: &str = "terms.txt";

const TRACE: &str = "trace.bin";

const HELP: &str = "\
usage: terms [TERMS [TRACE]]
       terms --help

Watches the samples of a trace by a book of terms, and prints where each clause broke.
  TERMS   the book, a line for each clause (terms.txt if not given):
            number rule [or rule] [allow N]
          a rule may begin with `after SIGNAL`, and is one of
            never p              repeat p within T
            never p from T       answer p by s within T
            hold p least T       keep s for T since p
            hold p under T
          p and s are signals: a letter a to x, or *, with ! before it for the opposite;
          T is a number of ticks, 0 to 999999999; N is 0 to 255; clause numbers rise
  TRACE   the words of the stream, four bytes each, high byte first (trace.bin if not given)

Prints a header, a line for each clause that broke (its number, and the number of the sample
at which it did), and DONE with the count of samples, or STOP with the number of a refusal,
which is explained on standard error. The status is 0 with DONE and 1 with STOP.
";

/// Reads the book and the trace, prints the report, and answers why it says STOP, if it does.
fn watch_files<'a>(
    terms: Input<'a>,
    trace: Input<'a>,
    out: &mut impl Write,
) -> io::Result<Option<Stop<'a>>> {
    match &terms.text() {
        Ok(text) => watch_text(text, terms.path, trace, out),
        Err(_) => {
            let refusal = Refusal::UnreadableFile;
            out.write_all(Page::stopped(refusal).bytes())?;
            let path = terms.path;
            Ok(Some(Stop::Refused { path, refusal }))
        }
    }
}

// A call of its own, so that its book and its run lie on the stack only once the text is read.
#[inline(never)]
fn watch_text<'a>(
    text: &[u8],
    terms: &'a str,
    trace: Input<'a>,
    out: &mut impl Write,
) -> io::Result<Option<Stop<'a>>> {
    match Run::new(text) {
        Ok(run) => watch_trace(run, trace, out),
        Err(fault) => {
            out.write_all(Page::stopped(fault.refusal()).bytes())?;
            Ok(Some(Stop::at_fault(terms, text, fault)))
        }
    }
}

fn watch_trace<'a>(
    mut run: Run,
    trace: Input<'a>,
    out: &mut impl Write,
) -> io::Result<Option<Stop<'a>>> {
    let end = trace.follow(&mut run);
    out.write_all(run.page(end).bytes())?;
    let path = trace.path;
    Ok(run.stop(end).map(|refusal| Stop::Refused { path, refusal }))
}

/// Says on standard error why the report says STOP, if it does, and gives the program's status.
fn ended(rt: &HostRuntime, stop: Option<Stop>) -> anyhow::Result<ExitCode> {
    let Some(stop) = stop else {
        return Ok(ExitCode::SUCCESS);
    };
    eprintln!(rt; "terms: {stop}")?;
    Ok(ExitCode::FAILURE)
}

fn main(rt: HostRuntime) -> anyhow::Result<ExitCode> {
    let mut args = env::args(&rt)?;
    let _program = args.next();
    let terms = args.next();
    if terms.as_deref() == Some("--help") {
        print!(rt; "{HELP}")?;
        return Ok(ExitCode::SUCCESS);
    }
    let trace = args.next();
    if args.next().is_some() {
        eprint!(rt; "{HELP}")?;
        return Ok(ExitCode::FAILURE);
    }
    let terms = Input {
        rt: &rt,
        path: terms.as_deref().unwrap_or(TERMS),
    };
    let trace = Input {
        rt: &rt,
        path: trace.as_deref().unwrap_or(TRACE),
    };
    let stop = watch_files(terms, trace, &mut rt.stdout())?;
    ended(&rt, stop)
}
