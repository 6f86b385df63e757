//! The program: it runs what its words ask for, over standard input and output, and ends with the status
//! that the run answers.
#![tactic(auto)]

mod sink;
mod source;

use sink::StdSink;
use source::StdSource;
use std::env::{self, Env};
use std::io;
use std::process::ExitCode;
use vec_shell::run;

/// The status where the words can't be read, or there is no memory for them.
const NO_WORDS: u8 = 7;

/// The words of the command line, the program's name first. No clause can say what the system gives.
fn words_of(rt: &(impl Env + AllocGlobal)) -> io::Result<Vec<String>> {
    Ok(env::args(rt)?.collect(rt.alloc())?)
}

fn main(rt: HostRuntime) -> ExitCode {
    let Ok(words) = words_of(&rt) else {
        return ExitCode::from(NO_WORDS);
    };
    let mut source = StdSource::new(rt.stdin());
    let mut sink = StdSink::new(rt.stdout());
    let status = run(&rt, rt.alloc(), words.as_slice(), &mut source, &mut sink);
    ExitCode::from(status)
}
