//! How the program ends: what it reports, and its status.
ghost use Rattle.std.specs.Prelude.{◌≡◌, ◌≤◌, IsErrOf, OnOk};
ghost use Rattle.std.specs.Process.{exit_status};
ghost use Rattle.workbench.specs.Ending.{IsMistake, IsStopAt};

use crate::fault::{Fault, fault_line};
use clap::error::ErrorKind;
use pw_transcript::RunFault;
use std::alloc::AllocError;
use std::process::ExitCode;

/// Why the program ends otherwise than after a job without a fault.
#[derive(Debug, Drop)]
pub enum Stop<'a> {
    /// The command line is bad, or it asks for help or for the version.
    CommandLine(clap::Error),
    /// There is a fault.
    Fault(Fault<'a>),
}

impl<'a> From<clap::Error> for Stop<'a> {
    // Out of memory is a fault, and not a bad command line.
    ghost from_gives = { λ error why. IsStopAt error why };

    fn from(error: clap::Error) -> Stop<'a> {
        if error.kind() == ErrorKind::OutOfMemory {
            Stop::Fault(Fault::Memory)
        } else {
            Stop::CommandLine(error)
        }
    }
}

impl<'a> From<Fault<'a>> for Stop<'a> {
    fn from(fault: Fault<'a>) -> Stop<'a> {
        Stop::Fault(fault)
    }
}

// Reports a fault on standard error, and answers the status of a fault.
fn tell_fault<R: Eprint + AllocGlobal>(rt: &R, fault: &Fault<'_>) -> ExitCode
    ensures { exit_status result ≡ 1 }
{
    // If standard error fails, there is nobody left to report to.
    let _ = match fault_line(rt.alloc(), fault) {
        Ok(line) => rt.eprintln(line),
        Err(AllocError) => rt.eprintln(Fault::Memory),
    };
    ExitCode::FAILURE
}

/// Reports why the program stops, if it does, and answers its status: 0, or 1 for a fault, or 2 for
/// a bad command line.
///
/// Help and the version go to standard output. If that fails, it is a fault, as for replies.
pub fn conclude<R: Print + Eprint + AllocGlobal>(rt: &R, ended: Result<(), Stop<'_>>) -> ExitCode
    ensures ok { OnOk ended.entry (exit_status result ≡ 0) }
    ensures fault { (fault : _) → IsErrOf ended.entry (Stop.Fault fault) → exit_status result ≡ 1 }
    ensures bad { (error : _) → IsErrOf ended.entry (Stop.CommandLine error) → IsMistake error
        → exit_status result ≡ 2 }
    ensures most { exit_status result ≤ 2 }
{
    let error = match ended {
        Ok(()) => return ExitCode::SUCCESS,
        Err(Stop::Fault(fault)) => return tell_fault(rt, &fault),
        Err(Stop::CommandLine(error)) => error,
    };
    match error.print(rt) {
        Err(_) if !error.use_stderr() => tell_fault(rt, &Fault::Run(RunFault::Write)),
        _ => ExitCode::from(error.exit_code() as u8),
    }
}
