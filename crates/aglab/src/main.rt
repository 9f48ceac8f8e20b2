//! The program: standard input to standard output.
#![tactic(auto)]

use ag_group::run::run;
use ag_group::status::Status;
use ag_outside::adapters::{ReadSource, WriteSink};
use std::alloc::{AllocFailed, Global};
use std::process::ExitCode;
use std::{env, io};

/// The words after the program's name.
fn words_of(alloc: Global, args: env::Args) -> Result<Vec<String>, AllocFailed<String>> {
    let mut words = Vec::new(alloc);
    for word in args.skip(1) {
        words.push(word)?;
    }
    Ok(words)
}

fn main(rt: HostRuntime) -> io::Result<ExitCode> {
    let status = match env::args(&rt) {
        Ok(args) => match words_of(rt.alloc(), args) {
            Ok(words) => {
                let mut source = ReadSource::new(rt.stdin());
                let mut sink = WriteSink::new(rt.stdout());
                run(rt.alloc(), &words, &mut source, &mut sink)
            }
            Err(_) => Status::NoMemory,
        },
        // a word that isn't UTF-8 is none of the command's
        Err(error) if error.kind() == io::ErrorKind::InvalidData => Status::Usage,
        Err(error) if error.kind() == io::ErrorKind::OutOfMemory => Status::NoMemory,
        Err(error) => return Err(error),
    };
    if status != Status::Done {
        eprintln!(rt; "aglab: {status}")?;
    }
    Ok(ExitCode::from(status.number()))
}
