//! What the lines of a declaration say, by their words. No names are looked up.
ghost use Rattle.std.specs.Prelude.{◌≡◌, true, option_map};
ghost use Rattle.pw_info.specs.Words.{words_of};
ghost use Rattle.pw_decl.specs.Declaration.{Header};
ghost use Rattle.pw_decl.specs.inside.Forms as forms;

use crate::version::Version;
use pw_info::{Words, are_names, read_name};

/// What a line outside a compound says, by its words.
#[derive(Drop)]
pub(crate) enum OuterSentence<'a> {
    /// `user NAME`
    User {
        name: &'a str,
    },
    /// `premise NAME`
    Premise {
        name: &'a str,
    },
    /// `premise NAME of USER`
    PremiseOf {
        name: &'a str,
        user: &'a [u8],
    },
    /// `set NAME MEMBER..`: the members are names.
    Set {
        name: &'a str,
        members: Words<'a>,
    },
    /// `cell NAME KIND`
    Cell {
        name: &'a str,
        kind: &'a [u8],
    },
    /// `compound NAME PARAM KIND ..`: alternating names and kinds.
    Compound {
        name: &'a str,
        parameters: Words<'a>,
    },
}

/// What a line inside a compound says, by its words.
#[derive(Drop)]
pub(crate) enum InnerSentence<'a> {
    /// `local NAME KIND`
    Local {
        name: &'a str,
        kind: &'a [u8],
    },
    /// `CALLABLE ARG..`, with one or more arguments.
    Call {
        callable: &'a [u8],
        arguments: Words<'a>,
    },
    /// `end`
    End,
}

// What follows `workbench`.
fn read_version(mut rest: Words<'_>) -> Option<Version>
    ensures { option_map Header result ≡ forms.version_form rest.entry }
{
    let version = rest.next()?;
    if !rest.is_empty() {
        return None;
    }
    if version == b"1".as_slice() {
        Some(Version::One)
    } else if version == b"2".as_slice() {
        Some(Version::Two)
    } else {
        None
    }
}

/// The version that the line names, if it is a header.
pub(crate) fn read_header(line: &[u8]) -> Option<Version>
    ensures { option_map Header result ≡ forms.header_form (words_of line.now) }
{
    let mut words = Words::new(line);
    let verb = words.next()?;
    if verb == b"workbench".as_slice() {
        read_version(words)
    } else {
        None
    }
}

// What follows `user`.
fn read_user<'a>(mut rest: Words<'a>) -> Option<OuterSentence<'a>>
    ensures { option_map forms.outer_in result ≡ forms.user_form rest.entry }
{
    let name = read_name(rest.next()?)?;
    if !rest.is_empty() {
        return None;
    }
    Some(OuterSentence::User { name })
}

// What follows `premise`.
fn read_premise<'a>(mut rest: Words<'a>) -> Option<OuterSentence<'a>>
    ensures { option_map forms.outer_in result ≡ forms.premise_form rest.entry }
{
    let name = read_name(rest.next()?)?;
    let Some(between) = rest.next() else {
        return Some(OuterSentence::Premise { name });
    };
    let user = rest.next()?;
    if !rest.is_empty() || between != b"of".as_slice() {
        return None;
    }
    Some(OuterSentence::PremiseOf { name, user })
}

// What follows `set`.
fn read_set<'a>(mut rest: Words<'a>) -> Option<OuterSentence<'a>>
    ensures { option_map forms.outer_in result ≡ forms.set_form rest.entry }
{
    let name = read_name(rest.next()?)?;
    if !are_names(rest.again()) {
        return None;
    }
    Some(OuterSentence::Set {
        name,
        members: rest,
    })
}

// What follows `cell`.
fn read_cell<'a>(mut rest: Words<'a>) -> Option<OuterSentence<'a>>
    ensures { option_map forms.outer_in result ≡ forms.cell_form rest.entry }
{
    let name = read_name(rest.next()?)?;
    let kind = rest.next()?;
    if !rest.is_empty() {
        return None;
    }
    Some(OuterSentence::Cell { name, kind })
}

// Whether the words alternate between names and kinds, and the names are names.
fn are_parameters(mut words: Words<'_>) -> bool
    ensures { result ≡ forms.are_parameters words.entry }
{
    while let Some(name) = words.next() {
        if words.next().is_none() || read_name(name).is_none() {
            return false;
        }
    }
    true
}

// What follows `compound`.
fn read_compound<'a>(mut rest: Words<'a>) -> Option<OuterSentence<'a>>
    ensures { option_map forms.outer_in result ≡ forms.compound_form rest.entry }
{
    let name = read_name(rest.next()?)?;
    if !are_parameters(rest.again()) {
        return None;
    }
    Some(OuterSentence::Compound {
        name,
        parameters: rest,
    })
}

/// What a line outside a compound says, if its words fit a form.
pub(crate) fn read_outer(line: &[u8]) -> Option<OuterSentence<'_>>
    ensures { option_map forms.outer_in result ≡ forms.outer_sentence_of (words_of line.now) }
{
    let mut words = Words::new(line);
    let verb = words.next()?;
    if verb == b"user".as_slice() {
        read_user(words)
    } else if verb == b"premise".as_slice() {
        read_premise(words)
    } else if verb == b"set".as_slice() {
        read_set(words)
    } else if verb == b"cell".as_slice() {
        read_cell(words)
    } else if verb == b"compound".as_slice() {
        read_compound(words)
    } else {
        None
    }
}

// What follows `local`.
fn read_local<'a>(mut rest: Words<'a>) -> Option<InnerSentence<'a>>
    ensures { option_map forms.inner_in result ≡ forms.local_form rest.entry }
{
    let name = read_name(rest.next()?)?;
    let kind = rest.next()?;
    if !rest.is_empty() {
        return None;
    }
    Some(InnerSentence::Local { name, kind })
}

/// What a line inside a compound says, if its words fit a form.
pub(crate) fn read_inner(line: &[u8]) -> Option<InnerSentence<'_>>
    ensures { option_map forms.inner_in result ≡ forms.inner_sentence_of (words_of line.now) }
{
    let mut words = Words::new(line);
    let verb = words.next()?;
    if verb == b"local".as_slice() {
        return read_local(words);
    }
    if verb == b"end".as_slice() {
        return if words.is_empty() {
            Some(InnerSentence::End)
        } else {
            None
        };
    }
    if words.is_empty() {
        return None;
    }
    Some(InnerSentence::Call {
        callable: verb,
        arguments: words,
    })
}
