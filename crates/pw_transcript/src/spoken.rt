//! What the words of a line say: the form of the command first, then the user, then the names.

ghost use Rattle.std.specs.Prelude.{◌≡◌, Some, codes, false, option_map};
ghost use Rattle.std.specs.Str.{bytes_eq};
ghost use Rattle.pw_decl.specs.inside.Fields.{declared};
ghost use Rattle.pw_transcript.specs.Sentence.{Believe, Beliefs, Doubt, Ask, Why, Conflicts, Other};
ghost use Rattle.pw_transcript.specs.inside.Forms.{tell_form, attach_form, premises_form, bare_form};
ghost use Rattle.pw_transcript.specs.inside.Forms.{cell_form, choose_form, said_form, sentence_by};
ghost use Rattle.pw_transcript.specs.inside.Forms.{sentence_form};
ghost use Rattle.pw_transcript.specs.inside.Resolving.{IsReadAs};

use crate::choice_text::resolve_choose;
use crate::command_text::{
    resolve_ask, resolve_attach, resolve_believe, resolve_doubt, resolve_tell, resolve_why,
};
use crate::sentence::{
    attach_words, cell_word, group_words, is_ask, is_doubt, is_tell, premise_words, tell_words,
};
use pw_decl::Declaration;
use pw_info::Words;
use pw_sessions::{Command, Refusal};
use std::alloc::Allocator;

// Each command is read by a function of its own, from its form to its names: so a line makes room
// only for the words of its own command.

/// What follows `tell`.
pub(crate) fn read_tell<A: Allocator + Copy>(
    declaration: &Declaration<'_, A>,
    user: &[u8],
    rest: Words<'_>,
) -> Result<Command, Refusal>
    ensures { IsReadAs (declared declaration.now)
        (option_map (sentence_by user.now) (tell_form rest.entry)) result }
{
    let Some(words) = tell_words(rest) else {
        return Err(Refusal::Syntax);
    };
    match declaration.user(user) {
        Some(user) => resolve_tell(declaration, user, words.cell, words.info, words.premises),
        None => Err(Refusal::UnknownUser),
    }
}

// What follows `attach`.
fn read_attach<A: Allocator + Copy>(
    declaration: &Declaration<'_, A>,
    user: &[u8],
    rest: Words<'_>,
) -> Result<Command, Refusal>
    ensures { IsReadAs (declared declaration.now)
        (option_map (sentence_by user.now) (attach_form rest.entry)) result }
{
    let Some(words) = attach_words(rest) else {
        return Err(Refusal::Syntax);
    };
    match declaration.user(user) {
        Some(user) => {
            resolve_attach(
                declaration,
                user,
                words.callable,
                words.cells,
                words.premises,
            )
        }
        None => Err(Refusal::UnknownUser),
    }
}

// What follows `believe`.
fn read_believe<A: Allocator + Copy>(
    declaration: &Declaration<'_, A>,
    user: &[u8],
    rest: Words<'_>,
) -> Result<Command, Refusal>
    ensures { IsReadAs (declared declaration.now)
        (option_map (sentence_by user.now) (premises_form Believe rest.entry)) result }
{
    let Some(premises) = premise_words(rest) else {
        return Err(Refusal::Syntax);
    };
    match declaration.user(user) {
        Some(user) => resolve_believe(declaration, user, premises),
        None => Err(Refusal::UnknownUser),
    }
}

// What follows `doubt`.
fn read_doubt<A: Allocator + Copy>(
    declaration: &Declaration<'_, A>,
    user: &[u8],
    rest: Words<'_>,
) -> Result<Command, Refusal>
    ensures { IsReadAs (declared declaration.now)
        (option_map (sentence_by user.now) (premises_form Doubt rest.entry)) result }
{
    let Some(premises) = premise_words(rest) else {
        return Err(Refusal::Syntax);
    };
    match declaration.user(user) {
        Some(user) => resolve_doubt(declaration, user, premises),
        None => Err(Refusal::UnknownUser),
    }
}

// What follows `beliefs`.
fn read_beliefs<A: Allocator + Copy>(
    declaration: &Declaration<'_, A>,
    user: &[u8],
    rest: Words<'_>,
) -> Result<Command, Refusal>
    ensures { IsReadAs (declared declaration.now)
        (option_map (sentence_by user.now) (bare_form Beliefs rest.entry)) result }
{
    if !rest.is_empty() {
        return Err(Refusal::Syntax);
    }
    match declaration.user(user) {
        Some(user) => Ok(Command::Beliefs { user }),
        None => Err(Refusal::UnknownUser),
    }
}

/// What follows `ask`.
pub(crate) fn read_ask<A: Allocator + Copy>(
    declaration: &Declaration<'_, A>,
    user: &[u8],
    rest: Words<'_>,
) -> Result<Command, Refusal>
    ensures { IsReadAs (declared declaration.now)
        (option_map (sentence_by user.now) (cell_form Ask rest.entry)) result }
{
    let Some(cell) = cell_word(rest) else {
        return Err(Refusal::Syntax);
    };
    match declaration.user(user) {
        Some(user) => resolve_ask(declaration, user, cell),
        None => Err(Refusal::UnknownUser),
    }
}

// What follows `why`.
fn read_why<A: Allocator + Copy>(
    declaration: &Declaration<'_, A>,
    user: &[u8],
    rest: Words<'_>,
) -> Result<Command, Refusal>
    ensures { IsReadAs (declared declaration.now)
        (option_map (sentence_by user.now) (cell_form Why rest.entry)) result }
{
    let Some(cell) = cell_word(rest) else {
        return Err(Refusal::Syntax);
    };
    match declaration.user(user) {
        Some(user) => resolve_why(declaration, user, cell),
        None => Err(Refusal::UnknownUser),
    }
}

// What follows `conflicts`.
fn read_conflicts<A: Allocator + Copy>(
    declaration: &Declaration<'_, A>,
    user: &[u8],
    rest: Words<'_>,
) -> Result<Command, Refusal>
    ensures { IsReadAs (declared declaration.now)
        (option_map (sentence_by user.now) (bare_form Conflicts rest.entry)) result }
{
    if !rest.is_empty() {
        return Err(Refusal::Syntax);
    }
    match declaration.user(user) {
        Some(user) => Ok(Command::Conflicts { user }),
        None => Err(Refusal::UnknownUser),
    }
}

// What follows `choose`.
fn read_choose<A: Allocator + Copy>(
    declaration: &Declaration<'_, A>,
    user: &[u8],
    rest: Words<'_>,
) -> Result<Command, Refusal>
    ensures { IsReadAs (declared declaration.now)
        (option_map (sentence_by user.now) (choose_form rest.entry)) result }
{
    let Some(groups) = group_words(rest) else {
        return Err(Refusal::Syntax);
    };
    match declaration.user(user) {
        Some(user) => resolve_choose(declaration, user, groups),
        None => Err(Refusal::UnknownUser),
    }
}

// The refusal of a word that names no command.
fn refuse_command<A: Allocator + Copy>(
    declaration: &Declaration<'_, A>,
    user: &[u8],
) -> Result<Command, Refusal>
    ensures { IsReadAs (declared declaration.now) (Some (sentence_by user.now Other)) result }
{
    match declaration.user(user) {
        Some(_) => Err(Refusal::UnknownCommand),
        None => Err(Refusal::UnknownUser),
    }
}

// Whether the name is this word.
#[inline(always)]
fn is_word(name: &[u8], word: &[u8]) -> bool
    ensures { result ≡ bytes_eq name.now word.now }
{
    name == word
}

/// What the words after the user say, if the word that names the command is neither `tell` nor
/// `ask`, which most lines have.
pub(crate) fn read_other<A: Allocator + Copy>(
    declaration: &Declaration<'_, A>,
    user: &[u8],
    name: &[u8],
    rest: Words<'_>,
) -> Result<Command, Refusal>
    requires tell { bytes_eq name.now (codes "tell") ≡ false }
    requires ask { bytes_eq name.now (codes "ask") ≡ false }
    ensures { IsReadAs (declared declaration.now)
        (option_map (sentence_by user.now) (said_form name.now rest.entry)) result }
{
    if is_word(name, b"attach") {
        read_attach(declaration, user, rest)
    } else if is_word(name, b"believe") {
        read_believe(declaration, user, rest)
    } else if is_doubt(name) {
        read_doubt(declaration, user, rest)
    } else if is_word(name, b"beliefs") {
        read_beliefs(declaration, user, rest)
    } else if is_word(name, b"why") {
        read_why(declaration, user, rest)
    } else if is_word(name, b"conflicts") {
        read_conflicts(declaration, user, rest)
    } else if is_word(name, b"choose") {
        read_choose(declaration, user, rest)
    } else {
        refuse_command(declaration, user)
    }
}

// What the words after the user say: the word that names the command, and those after it.
fn read_named<A: Allocator + Copy>(
    declaration: &Declaration<'_, A>,
    user: &[u8],
    name: &[u8],
    rest: Words<'_>,
) -> Result<Command, Refusal>
    ensures { IsReadAs (declared declaration.now)
        (option_map (sentence_by user.now) (said_form name.now rest.entry)) result }
{
    if is_tell(name) {
        read_tell(declaration, user, rest)
    } else if is_ask(name) {
        read_ask(declaration, user, rest)
    } else {
        read_other(declaration, user, name, rest)
    }
}

/// What the words of a line say: the command, or the first refusal that applies. Fewer than two
/// words, and words that do not fit the form of the command that the second one names, are bad
/// syntax.
pub(crate) fn read_words<A: Allocator + Copy>(
    declaration: &Declaration<'_, A>,
    mut words: Words<'_>,
) -> Result<Command, Refusal>
    ensures { IsReadAs (declared declaration.now) (sentence_form words.entry) result }
{
    let Some(user) = words.next() else {
        return Err(Refusal::Syntax);
    };
    let Some(name) = words.next() else {
        return Err(Refusal::Syntax);
    };
    read_named(declaration, user, name, words)
}
