//! The command line of the program: its arguments, the job that they ask for, and the help. It is a
//! crate of its own because the values of `clap` take long to prove.
#![tactic(auto)]

use clap::error::ErrorKind;
use clap::{Arg, Command, Error};
use std::alloc::{AllocError, Global};
use std::rt::Env;
use std::{env, io};

const VERSION: &str = "0.1.0";

const ABOUT: &str =
    "Answers what users tell and ask of shared cells, each under the premises they believe";

const MORE: &str = "Files:
  DECL        a declaration: first `workbench 1` (at most 64 premises, 64 members in a set) or
              `workbench 2` (512 and 128), then a line for each user, premise, set and cell,
              as `user ann`, `premise a`, `premise b of ann` (ann's alone to tell under),
              `set part cable card`, `cell x interval`, `cell k exact`, `cell f part`;
              and compounds, each of several lines, as `compound twice x interval t interval`,
              `adder x x t`, `end`: calls of procedures, of the compounds above it and of sum,
              product and conditional, over its parameters and cells as `local s interval`
  TRANSCRIPT  a command on each line; `run` reads standard input where no file is named

Command lines:
  USER tell CELL INFO [under P..]  tells of CELL that it is INFO, as 5, 1..5 or {card}, given the premises P..
  USER attach CALLABLE CELL.. [under P..]
                                   lets a procedure or compound carry information between cells, given the premises P..
  USER believe P..                 USER believes the premises; at the start every user believes all
  USER doubt P..                   USER believes them no longer
  USER beliefs                     asks which premises USER believes
  USER ask CELL                    asks what follows at CELL under the premises USER believes
  USER why CELL                    asks the same, and which of these premises it needs
  USER conflicts                   asks which cells and attachments contradict themselves under these premises
  USER choose GROUP..              asks for one premise of each GROUP, as a|b|c, so that nothing contradicts itself,
                                   and believes the first such choice in place of all premises of the groups

Each command is answered on standard output by a line `N: REPLY`, where N is the number of its line.

By hand, type a command and read its reply; Ctrl-D, the end of standard input, ends the run.
`rlwrap workbench run DECL` lets you edit lines and call back earlier ones.

`workbench check DECL` reads the declaration alone. Where it has no fault it prints how many users,
premises, cells, sets and compounds are declared, as `ok users 1 premises 2 cells 3 sets 1 compounds 1`.
`workbench list DECL` prints what is declared, a line each, as `user ann`, `premise b of ann`,
`set part cable card`, `cell x interval`, `compound twice x interval t interval`.
`workbench explain DECL [TRANSCRIPT]` shows each faulty line of DECL, or of TRANSCRIPT, with the word
at fault, what was expected in its place, and the nearest name; `ok` if no line is faulty.
`workbench procedures` prints a line for each procedure and built-in compound: its name, the kinds of
its cells, and what it says about them.

Status:
  0  the transcript was answered to its end, the declaration has no fault, no line is faulty for `explain`,
     or the procedures, the help or the version were printed
  1  a fault; one line on standard error says which
  2  a bad command line

Example, with the declaration above:
  $ printf 'ann tell x 1..5 under a\\nann ask x\\n' | workbench run DECL
  1: ok
  2: 1..5

The manual is workbench(5), or docs/FORMATS.md in the sources.";

/// The job that the program is asked to do. Files are given by name.
#[derive(Clone, Copy, Debug, PartialEq, Eq)]
pub enum Job<'a> {
    /// Answer a transcript over a declaration. Without a file, the transcript comes from standard
    /// input.
    Run {
        declaration: &'a str,
        transcript: Option<&'a str>,
    },
    /// Report how much a declaration declares.
    Check {
        declaration: &'a str,
    },
    /// List what a declaration declares.
    List {
        declaration: &'a str,
    },
    /// Explain the faulty lines of a declaration, and those of a transcript, if one is named.
    Explain {
        declaration: &'a str,
        transcript: Option<&'a str>,
    },
    /// Print the table of the procedures.
    Procedures,
}

/// The arguments given to the program. The first is the program's name.
///
/// An error means out of memory, or an argument that is not UTF-8, which is a bad command line.
pub fn given_arguments<R: Env + AllocGlobal>(rt: &R) -> Result<Vec<String>, Error> {
    match env::args(rt) {
        Ok(arguments) => Ok(arguments.collect(rt.alloc())?),
        Err(error) if error.kind() == io::ErrorKind::OutOfMemory => Err(Error::from(AllocError)),
        Err(_) => Err(bad_command_line(rt.alloc(), "a word is not UTF-8")),
    }
}

// The argument that names the declaration.
fn declaration_argument<'a>(alloc: Global) -> Arg<'a> {
    Arg::new(alloc, "DECL")
        .help("The file of the declaration")
        .required(true)
}

// The command line that the program understands.
fn command<'a>(alloc: Global) -> Result<Command<'a>, Error> {
    let transcript = Arg::new(alloc, "TRANSCRIPT").help(
        "The file of the transcript, instead of standard input",
    );
    let run = Command::new(alloc, "run")
        .about("Answers each command of a transcript")
        .arg(declaration_argument(alloc))?
        .arg(transcript)?;
    let check = Command::new(alloc, "check")
        .about("Says how much a declaration declares, or its first fault")
        .arg(declaration_argument(alloc))?;
    let list = Command::new(alloc, "list")
        .about("Lists what a declaration declares, a line each, or says its first fault")
        .arg(declaration_argument(alloc))?;
    let explained = Arg::new(alloc, "TRANSCRIPT").help(
        "The file of the transcript, whose refused lines are explained if the declaration has no fault",
    );
    let explain = Command::new(alloc, "explain")
        .about("Explains the faulty lines of a declaration, or of a transcript")
        .arg(declaration_argument(alloc))?
        .arg(explained)?;
    let procedures = Command::new(alloc, "procedures").about(
        "Lists the procedures and the built-in compounds, with the kinds of their cells",
    );
    let workbench = Command::new(alloc, "workbench")
        .version(VERSION)
        .about(ABOUT)
        .after_help(MORE)
        .subcommand_required(true)
        .subcommand(run)?
        .subcommand(check)?
        .subcommand(list)?
        .subcommand(explain)?
        .subcommand(procedures)?;
    Ok(workbench)
}

/// The job that the arguments ask for. The first argument is the program's name.
///
/// An error is a bad command line, a call for help or for the version, or out of memory. Its text
/// is the message for the user.
pub fn read_arguments<'a>(alloc: Global, arguments: &'a [String]) -> Result<Job<'a>, Error> {
    let matches = command(alloc)?.try_get_matches_from(arguments)?;
    if let Some(run) = matches.subcommand_matches("run") {
        if let Some(declaration) = run.get_str("DECL") {
            return Ok(Job::Run {
                declaration,
                transcript: run.get_str("TRANSCRIPT"),
            });
        }
    }
    if let Some(check) = matches.subcommand_matches("check") {
        if let Some(declaration) = check.get_str("DECL") {
            return Ok(Job::Check { declaration });
        }
    }
    if let Some(list) = matches.subcommand_matches("list") {
        if let Some(declaration) = list.get_str("DECL") {
            return Ok(Job::List { declaration });
        }
    }
    if let Some(explain) = matches.subcommand_matches("explain") {
        if let Some(declaration) = explain.get_str("DECL") {
            return Ok(Job::Explain {
                declaration,
                transcript: explain.get_str("TRANSCRIPT"),
            });
        }
    }
    if matches.subcommand_matches("procedures").is_some() {
        return Ok(Job::Procedures);
    }
    // The command accepts no arguments but these.
    Err(bad_command_line(alloc, "no declaration was named"))
}

// A bad command line with this message, or out of memory if there is no memory for the text.
fn bad_command_line(alloc: Global, message: &str) -> Error {
    match command(alloc) {
        Ok(mut command) => match command.error(ErrorKind::UnknownArgument, message) {
            Ok(error) => error,
            Err(refused) => Error::from(refused),
        },
        Err(error) => error,
    }
}
