// Replays a trace from standard input to standard output.
#![tactic(auto)]

mod ending;

use ending::{NO_MEMORY, REFUSED, say_why};
use space_io::{BufferedSink, StdSink, StdSource};
use space_run::run;
use std::process::ExitCode;
use std::{env, io};

fn main(rt: HostRuntime) -> ExitCode {
    let alloc = rt.alloc();
    let mut source = StdSource::new(rt.stdin());
    let Ok(mut sink) = BufferedSink::new(alloc, StdSink::new(io::writer(&rt))) else {
        say_why(&rt, NO_MEMORY, None);
        return ExitCode::from(NO_MEMORY);
    };
    let status = match env::args(&rt) {
        Ok(args) => match args.skip(1).collect(alloc) {
            Ok(words) => run(alloc, &words, &mut source, &mut sink),
            Err(_) => NO_MEMORY,
        },
        Err(error) => match error.kind() {
            io::ErrorKind::OutOfMemory => NO_MEMORY,
            _ => REFUSED,
        },
    };
    say_why(&rt, status, source.error().or(sink.inner().error()));
    ExitCode::from(status)
}
