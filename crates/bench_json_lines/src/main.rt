//! A yardstick for bench/filter and no part of aql_shell: reads lines of JSON by `serde_json`
//! alone, and prints how many these were.
#![tactic(auto)]

use anyhow::{Context, Result};
use serde_json::Value;
use std::alloc::Global;
use std::io::{BufRead, BufReader};

// The values of the lines that are not empty.
fn read_values<R: BufRead + Drop>(alloc: Global, reader: R) -> Result<Vec<Value>> {
    let mut values = Vec::new(alloc);
    for line in reader.lines(alloc) {
        let line = line.context("reading the next line")?;
        if line.is_empty() {
            continue;
        }
        let before = values.len();
        let value = Value::from_str(alloc, line.as_str());
        values.push(value.context(format_args!("reading JSON after {before} lines"))?)?;
    }
    Ok(values)
}

fn main(rt: HostRuntime) -> Result<()> {
    let reader = BufReader::new(rt.alloc(), rt.reader())?;
    let values = read_values(rt.alloc(), reader)?;
    let count = values.len();
    println!(rt; "{count} lines")?;
    Ok(())
}
