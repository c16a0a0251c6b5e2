//! Reading a choice: its groups of names first, then their premises.

ghost use Rattle.std.specs.Prelude.{◌≡◌, ◌∷◌, ◌++◌, [], true, map, IfNone, IfSome};
ghost use Rattle.pw_info.specs.GroupNames.{names_in};
ghost use Rattle.pw_decl.specs.inside.Fields.{declared};
ghost use Rattle.pw_reasons.specs.Combinations.{groups_of};
ghost use Rattle.pw_reasons.specs.Groups.{AreGroups};
ghost use Rattle.pw_transcript.specs.Reading as spec;
ghost use Rattle.pw_transcript.specs.Sentence.{Choose};
ghost use Rattle.pw_transcript.specs.inside.Grouping.{all_names, held_groups};
ghost use Rattle.pw_transcript.specs.inside.Resolving.{IsReadFor};

use crate::group_names::{AllNames, are_groups};
use pw_decl::Declaration;
use pw_info::{GroupNames, Words};
use pw_reasons::Groups;
use pw_sessions::{Command, Refusal};
use std::alloc::Allocator;

// The greatest number of premises in a group.
const MOST_PREMISES: usize = 4;

// Whether each of the names is one of a premise.
fn are_premises<A: Allocator + Copy>(
    declaration: &Declaration<'_, A>,
    mut names: AllNames<'_>,
) -> bool
    ensures { result ≡ spec.all_known (declared declaration.now) names.entry }
{
    while let Some(name) = names.next() {
        if declaration.premise(name).is_none() {
            return false;
        }
    }
    true
}

// These groups, and one more after them, of the premises that the names in the word name. None if
// they are no groups then.
fn with_group<A: Allocator + Copy>(
    declaration: &Declaration<'_, A>,
    groups: Option<Groups>,
    word: &[u8],
) -> Option<Groups>
    requires known { spec.all_known (declared declaration.now) (names_in word.now) ≡ true }
    ensures some { IfSome result (λ more. groups_of more ≡ held_groups groups
        ++ spec.premises_named (declared declaration.now) (names_in word.now) ∷ []) }
    ensures none { IfNone result (AreGroups (held_groups groups
        ++ spec.premises_named (declared declaration.now) (names_in word.now) ∷ []) → ⊥) }
{
    let mut premises = [0; MOST_PREMISES];
    let mut count = 0;
    let mut names = GroupNames::new(word);
    while let Some(name) = names.next() {
        let Some(premise) = declaration.premise(name) else {
            unreachable!("each name names a premise");
        };
        if count >= MOST_PREMISES {
            return None;
        }
        premises[count] = premise;
        count += 1;
    }
    match groups {
        Some(groups) => groups.with(&premises[..count]),
        None => Groups::one(&premises[..count]),
    }
}

// The groups of premises that the words name. There is at least one word, and each name in the
// words is one of a premise. None if they are no groups.
fn named_groups<A: Allocator + Copy>(
    declaration: &Declaration<'_, A>,
    mut words: Words<'_>,
) -> Option<Groups>
    requires known { spec.all_known (declared declaration.now) (all_names words) ≡ true }
    ensures some { IfSome result (λ groups. groups_of groups ≡ spec.premise_groups
        (declared declaration.now) (map names_in words.entry)) }
    ensures none { IfNone result (AreGroups (spec.premise_groups
        (declared declaration.now) (map names_in words.entry)) → ⊥) }
{
    let mut groups = None;
    while let Some(word) = words.next() {
        let more = with_group(declaration, groups, word)?;
        groups = Some(more);
    }
    groups
}

/// The choice of a user among groups of premises. Never inlined, so that other lines make no room
/// for its groups.
#[inline(never)]
pub(crate) fn resolve_choose<A: Allocator + Copy>(
    declaration: &Declaration<'_, A>,
    user: u8,
    words: Words<'_>,
) -> Result<Command, Refusal>
    ensures { IsReadFor (declared declaration.now) user (Choose (map names_in words.entry)) result }
{
    if !are_groups(words.again()) {
        return Err(Refusal::WrongArguments);
    }
    if !are_premises(declaration, AllNames::new(words.again())) {
        return Err(Refusal::UnknownPremise);
    }
    let Some(groups) = named_groups(declaration, words) else {
        return Err(Refusal::WrongArguments);
    };
    Ok(Command::Choose { user, groups })
}
