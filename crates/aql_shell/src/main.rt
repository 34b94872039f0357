//! Reads a script on standard input and prints one answer of its query; the words of the command
//! line may ask for something else.
#![tactic(auto)]

use aql_io::{StdSink, StdSource, write_all};
use aql_local::Local;
use aql_top::run_shell;
use aql_value::{Names, OutOfMemory, Text};
use std::env;
use std::io::ErrorKind;
use std::process::ExitCode;
use std::rt::Env;

// Why there are no words.
enum WordsFault {
    NotText,
    Memory,
}

impl From<OutOfMemory> for WordsFault {
    fn from(_: OutOfMemory) -> Self {
        WordsFault::Memory
    }
}

// The words of the command line, the program's name first.
fn words(rt: &(impl Env + AllocGlobal)) -> Result<Names, WordsFault> {
    let alloc = rt.alloc();
    let mut names = Names::new(alloc);
    let args = match env::args(rt) {
        Ok(args) => args,
        Err(error) => {
            return Err(match error.kind() {
                ErrorKind::OutOfMemory => WordsFault::Memory,
                _ => WordsFault::NotText,
            });
        }
    };
    for arg in args {
        names.push(Text::from_string(arg)?)?;
    }
    Ok(names)
}

fn main(rt: HostRuntime) -> ExitCode {
    let mut err = StdSink::new(rt.stderr());
    let names = match words(&rt) {
        Ok(names) => names,
        Err(WordsFault::NotText) => {
            let _ = write_all(&mut err, b"aql: words\n");
            return ExitCode::from(2);
        }
        Err(WordsFault::Memory) => {
            let _ = write_all(&mut err, b"aql: out of memory\n");
            return ExitCode::from(8);
        }
    };
    let mut source = StdSource::new(rt.stdin());
    let mut out = StdSink::new(rt.stdout());
    let alloc = rt.alloc();
    let mut engine = Local::new(alloc);
    ExitCode::from(run_shell(alloc, &names, &mut source, &mut out, &mut err, &mut engine))
}
