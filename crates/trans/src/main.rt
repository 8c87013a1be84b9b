//! `trans`: translates PowerPC programs to IA-32.
#![tactic(auto)]

use outside::{HostFiles, HostSink, HostSource, put_all};
use std::env;
use std::io::ErrorKind;
use std::process::ExitCode;
use std::rt::Env;
use trans_tool::top;
use word_kit::NoMemory;

// The status of want of memory.
const NO_MEMORY: u8 = 74;

fn main(rt: HostRuntime) -> ExitCode {
    let alloc = rt.alloc();
    let mut files = HostFiles::fresh(alloc, &rt);
    let mut input = HostSource::of(rt.stdin());
    let mut output = HostSink::of(rt.stdout());
    let mut errors = HostSink::of(rt.stderr());
    let status = match words(&rt) {
        Ok(words) => top(
            alloc,
            &words,
            &mut files,
            &mut input,
            &mut output,
            &mut errors,
        ),
        Err(NoMemory) => {
            let _ = put_all(&mut errors, b"trans: out of memory\n");
            return ExitCode::from(NO_MEMORY);
        }
    };
    ExitCode::from(status.code)
}

// The words behind the program's name. Words that are no text spell no command, as no words do.
fn words<R: Env + AllocGlobal>(rt: &R) -> Result<Vec<String>, NoMemory> {
    let mut words = Vec::new(rt.alloc());
    match env::args(rt) {
        Ok(all) => {
            for word in all.skip(1) {
                words.push(word)?;
            }
            Ok(words)
        }
        Err(error) if error.kind() == ErrorKind::OutOfMemory => Err(NoMemory),
        Err(_) => Ok(words),
    }
}
