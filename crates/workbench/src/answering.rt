//! The jobs: a declaration is read over a registry of procedures; then a transcript is answered,
//! what is declared is counted or listed, or faulty lines are explained. Or the table of the
//! procedures is printed.

use crate::checking::check_line;
use crate::explaining::{Blocks, explain_text};
use crate::fault::Fault;
use crate::files::declaration_text;
use crate::listing::listing;
use crate::refused_lines::write_refused_lines;
use pw_command_line::Job;
use pw_decl::{Declaration, read_declaration};
use pw_info::{Writing, put_all};
use pw_procs::Registry;
use pw_standard::{OverRegistry, over_standard, procedure_table};
use pw_transcript::{Reading, RunFault, run};
use std::alloc::{Allocator, Global};
use std::io::Read;
use std::rt::Files;
use std::{fs, io};

// Answers the transcript on standard output.
fn answer<R: Print + AllocGlobal, T: Read + Drop>(
    rt: &R,
    declaration: &Declaration<'_>,
    transcript: T,
) -> Result<(), RunFault> {
    let mut input = Reading::new(transcript);
    let mut output = Writing::new(io::writer(rt));
    run(rt.alloc(), declaration, &mut input, &mut output)?;
    Ok(())
}

// Answers the transcript over the declaration: the file of this name, or standard input.
fn answer_over<'a, R: Files + Input + Print + AllocGlobal>(
    rt: &R,
    declaration: &Declaration<'_>,
    transcript: Option<&'a str>,
) -> Result<(), Fault<'a>> {
    match transcript {
        Some(name) => match fs::open(rt, name) {
            Ok(file) => answer(rt, declaration, file)?,
            Err(_) => return Err(Fault::CannotRead(name)),
        },
        None => answer(rt, declaration, rt.reader())?,
    }
    Ok(())
}

// Reads the declaration, and answers the transcript over it.
fn answer_transcript<'a, R: Files + Input + Print + AllocGlobal>(
    rt: &R,
    registry: &Registry,
    declaration: &'a str,
    transcript: Option<&'a str>,
) -> Result<(), Fault<'a>> {
    let text = declaration_text(rt, declaration)?;
    let declaration = read_declaration(rt.alloc(), &text, registry)?;
    answer_over(rt, &declaration, transcript)
}

// Reads the declaration, and reports on standard output how much it declares.
fn check<'a, R: Files + Print + AllocGlobal>(
    rt: &R,
    registry: &Registry,
    declaration: &'a str,
) -> Result<(), Fault<'a>> {
    let text = declaration_text(rt, declaration)?;
    let line = check_line(rt.alloc(), &text, registry)?;
    match rt.println(line) {
        Ok(()) => Ok(()),
        Err(_) => Err(Fault::Run(RunFault::Write)),
    }
}

// Writes the bytes to standard output.
fn print<'a, R: Print>(rt: &R, bytes: &[u8]) -> Result<(), Fault<'a>> {
    let mut output = Writing::new(io::writer(rt));
    match put_all(&mut output, bytes) {
        Ok(()) => Ok(()),
        Err(_) => Err(Fault::Run(RunFault::Write)),
    }
}

// Reads the declaration, and lists on standard output what it declares.
fn list<'a, R: Files + Print + AllocGlobal>(
    rt: &R,
    registry: &Registry,
    declaration: &'a str,
) -> Result<(), Fault<'a>> {
    let text = declaration_text(rt, declaration)?;
    let listing = listing(rt.alloc(), &text, registry)?;
    print(rt, &listing)
}

// Prints what is explained of a declaration.
fn print_blocks<'a, R: Print + AllocGlobal>(
    rt: &R,
    blocks: &Blocks<Global>,
) -> Result<(), Fault<'a>> {
    print(rt, &blocks.text)?;
    if blocks.are_cut {
        print(rt, b"out of memory: faulty lines may follow\n")?;
    }
    Ok(())
}

// Explains the faulty lines of the text of a declaration. If there are any, it fails with the fault
// of the first.
fn explain_declaration<'a, R: Print + AllocGlobal>(
    rt: &R,
    registry: &Registry,
    text: &[u8],
) -> Result<(), Fault<'a>> {
    let table = procedure_table().as_bytes();
    match explain_text(rt.alloc(), table, registry, text) {
        Some((blocks, fault)) => {
            print_blocks(rt, &blocks)?;
            Err(fault)
        }
        None => Ok(()),
    }
}

// Explains the refused lines of the transcript of this name, over the declaration of the text. If
// there are any, it fails.
fn explain_over<'a, R: Files + Print + AllocGlobal, A: Allocator + Copy>(
    rt: &R,
    alloc: A,
    text: &[u8],
    declaration: &Declaration<'_, A>,
    transcript: &'a str,
) -> Result<(), Fault<'a>> {
    let Ok(file) = fs::open(rt, transcript) else {
        return Err(Fault::CannotRead(transcript));
    };
    let table = procedure_table().as_bytes();
    if write_refused_lines(rt, alloc, table, text, declaration, file)? {
        return Err(Fault::RefusedLines);
    }
    Ok(())
}

// Reads the declaration of the text, and explains the refused lines of the transcript of this name.
fn explain_transcript<'a, R: Files + Print + AllocGlobal>(
    rt: &R,
    registry: &Registry,
    text: &[u8],
    transcript: &'a str,
) -> Result<(), Fault<'a>> {
    // By reference, so that the code that reads commands here is not the one that `run` has inline: a
    // second caller would keep it from being inlined there, at a tenth of the cost of a line.
    let alloc = rt.alloc();
    let declaration = read_declaration(&alloc, text, registry)?;
    explain_over(rt, &alloc, text, &declaration, transcript)
}

// Explains the faulty lines of the declaration, or if it has none the refused lines of the
// transcript, if one is named.
fn explain<'a, R: Files + Print + AllocGlobal>(
    rt: &R,
    registry: &Registry,
    declaration: &'a str,
    transcript: Option<&'a str>,
) -> Result<(), Fault<'a>> {
    let text = declaration_text(rt, declaration)?;
    explain_declaration(rt, registry, &text)?;
    if let Some(transcript) = transcript {
        explain_transcript(rt, registry, &text, transcript)?;
    }
    print(rt, b"ok\n")
}

// A job to be done.
#[derive(Drop)]
struct Doing<'r, 'a, R> {
    rt: &'r R,
    job: &'r Job<'a>,
}

impl<'a, R: Files + Input + Print + AllocGlobal> OverRegistry for Doing<'_, 'a, R> {
    type Answer = Result<(), Fault<'a>>;

    fn over(self, registry: &Registry) -> Result<(), Fault<'a>> {
        match *self.job {
            Job::Run {
                declaration,
                transcript,
            } => answer_transcript(self.rt, registry, declaration, transcript),
            Job::Check { declaration } => check(self.rt, registry, declaration),
            Job::List { declaration } => list(self.rt, registry, declaration),
            Job::Explain {
                declaration,
                transcript,
            } => explain(self.rt, registry, declaration, transcript),
            Job::Procedures => print(self.rt, procedure_table().as_bytes()),
        }
    }
}

/// Does the job over the standard procedures. Fails with the fault that ends the program: `Memory`, if
/// there is no memory for the procedures.
pub fn do_job<'a, R: Files + Input + Print + AllocGlobal>(
    rt: &R,
    job: &Job<'a>,
) -> Result<(), Fault<'a>> {
    over_standard(rt.alloc(), Doing { rt, job })?
}
