//! Explains a captured bus log: standard input, line by line, in words on standard output.
#![tactic(auto)]

use buslog::Report;
use std::io::{BufRead, BufReader, BufWriter, Write};

fn main(rt: HostRuntime) -> anyhow::Result<()> {
    inspect(&rt)
}

fn inspect(rt: &HostRuntime) -> anyhow::Result<()> {
    let heap = rt.alloc();
    let mut out = BufWriter::new(heap, rt.stdout())?;
    let mut report = Report::new();
    for line in BufReader::new(heap, rt.stdin())?.split(heap, b'\n') {
        if let Some(text) = report.explain(heap, line?.as_slice())? {
            out.writeln(text)?;
        }
    }
    out.writeln(report)?;
    out.flush()?;
    Ok(())
}
