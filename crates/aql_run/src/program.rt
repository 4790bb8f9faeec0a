//! What a program does from its start to its end, over the devices of the system.

use crate::report::{Kept, exit_of};
use crate::run_keeping;
use aql_outside::FreeGate;
use aql_system::{FileSystem, InputStream, OutputStream, SystemDisk};
use std::env;
use std::io::{self, ErrorKind, Read, Write};
use std::process::ExitCode;
use std::rt::{Env, Files};
use std::thread::Threads;

/// How a program ends: its exit status, and where the words of the command line could be had what was kept of the run.
#[derive(Drop)]
pub struct Ended {
    pub status: u8,
    pub kept: Option<Kept>,
}

/// Runs the script of the input over the files of the system with the words of the command line, writes the answers to the output,
/// and gives the status of the run. What comes of it is the contract of `run`; that the devices of the system are what is handed
/// to it, and its status what is given, stands in no clause.
pub fn start<R, I, O>(rt: &R, input: I, output: O) -> ExitCode
where
    R: AllocGlobal + Env + Eprint + Files + Threads + Sync,
    I: Read + Drop,
    O: Write + Drop,
{
    let ended = start_keeping(rt, input, output);
    ExitCode::from(ended.status)
}

/// The same, for a program that explains the fault of the run, which it is handed.
pub fn start_keeping<R, I, O>(rt: &R, input: I, output: O) -> Ended
where
    R: AllocGlobal + Env + Eprint + Files + Threads + Sync,
    I: Read + Drop,
    O: Write + Drop,
{
    let ended = match words(rt) {
        Ok(words) => {
            let mut input = InputStream::new(input);
            let mut output = OutputStream::new(output);
            let mut files = FileSystem::new(SystemDisk::new(rt));
            let kept = run_keeping(
                rt,
                rt.alloc(),
                words.as_slice(),
                &mut input,
                &mut output,
                &mut files,
                &FreeGate,
            );
            Ended {
                status: exit_of(&kept.report),
                kept: Some(kept),
            }
        }
        Err(error) if error.kind() == ErrorKind::OutOfMemory => ended_early(1),
        Err(_) => ended_early(2),
    };
    tell(rt, ended.status);
    ended
}

// The end of a program that ran nothing.
fn ended_early(status: u8) -> Ended {
    Ended { status, kept: None }
}

// The words of the command line, the program's name first.
fn words(rt: &(impl Env + AllocGlobal)) -> io::Result<Vec<String>> {
    Ok(env::args(rt)?.collect(rt.alloc())?)
}

// Writes the line of a status that has one to standard error. A failure there changes nothing.
fn tell(rt: &impl Eprint, status: u8) {
    let line = match status {
        1 => "aql: out of memory",
        2 => "usage: aql [--workers N] [--budget N] [--plan] [--sample N]",
        _ => return,
    };
    let _ = eprintln!(rt; "{line}");
}
