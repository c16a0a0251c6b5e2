//! Which users are fresh: nothing is left to derive under what they believe, so that their questions
//! call no procedure.

use super::answers::Answer;
use super::declared::USERS;
use super::drawing::{Action, Command};
use super::entries::Entries;
use pw_premises::PremiseSet;
use pw_procs::Registry;
use pw_testing::facts::is_of_kind;
use std::test::Fail;

/// What is known of a user.
#[derive(Clone, Copy, PartialEq, Eq, Debug)]
pub enum Freshness {
    Unknown,
    Fresh,
    /// Fresh, and chose since then from groups of which no combination is consistent.
    FreshAfterNone,
}

/// What is known of each user.
#[derive(Clone, Copy)]
pub struct Users {
    users: [Freshness; 3],
}

impl Entries {
    /// Whether the command settles: it asks why or for conflicts, or for a cell that a visible
    /// instance writes.
    pub fn settles(&self, command: &Command) -> bool {
        match command.action {
            Action::Ask(cell) => self.is_written(cell, &self.beliefs(command.user)),
            Action::Why(_) | Action::Conflicts => true,
            _ => false,
        }
    }

    // Whether the command attaches under premises that the user believes, or tells something that
    // does not follow under these beliefs.
    fn is_news(&self, registry: &Registry, command: &Command, user: usize) -> Result<bool, Fail> {
        let beliefs = self.beliefs(user);
        match command.action {
            Action::Attach(_, _, support) => Ok(support.is_subset(&beliefs)),
            Action::Tell(cell, known, support) => {
                if !support.is_subset(&beliefs) {
                    return Ok(false);
                }
                let Some(value) = self.value(registry, &beliefs, cell)? else {
                    return Ok(true);
                };
                let info = known.info();
                Ok(!is_of_kind(&value, info.kind()) || !value.implies(&info))
            }
            _ => Ok(false),
        }
    }
}

impl Users {
    /// None is known to be fresh.
    pub fn new() -> Users {
        Users {
            users: [Freshness::Unknown; 3],
        }
    }

    /// What is known of the user.
    pub fn of(&self, user: usize) -> Freshness {
        match self.users.get(user) {
            Some(freshness) => *freshness,
            None => Freshness::Unknown,
        }
    }

    // From now on this is known of the user.
    fn set(&mut self, user: usize, freshness: Freshness) {
        if let Some(held) = self.users.get_mut(user) {
            *held = freshness;
        }
    }

    // Whether some user of these beliefs is fresh.
    fn is_any_fresh(&self, entries: &Entries, beliefs: &PremiseSet) -> bool {
        for user in 0..USERS.len() {
            if self.of(user) != Freshness::Unknown && entries.beliefs(user) == *beliefs {
                return true;
            }
        }
        false
    }

    /// The most calls of procedures that the command may take.
    pub fn most_calls(&self, entries: &Entries, command: &Command) -> u128 {
        if !entries.settles(command) || self.of(command.user) != Freshness::Unknown {
            return 0;
        }
        // Who believes what a fresh user believes is fresh too.
        if self.is_any_fresh(entries, &entries.beliefs(command.user)) {
            return 0;
        }
        u128::MAX
    }

    /// The line of this user was refused.
    pub fn note_refusal(&mut self, user: usize) {
        self.set(user, Freshness::Unknown);
    }

    /// The command is about to be accepted: it ends the freshness of those to whom it is news.
    pub fn note_news(
        &mut self,
        registry: &Registry,
        entries: &Entries,
        command: &Command,
    ) -> Result<(), Fail> {
        for user in 0..USERS.len() {
            if self.of(user) != Freshness::Unknown && entries.is_news(registry, command, user)? {
                self.set(user, Freshness::Unknown);
            }
        }
        Ok(())
    }

    /// The command was accepted and got this answer. Its user believed this before.
    pub fn note_answer(
        &mut self,
        entries: &Entries,
        command: &Command,
        answer: &Answer,
        before: &PremiseSet,
    ) {
        let user = command.user;
        if entries.beliefs(user) != *before {
            self.set(user, Freshness::Unknown);
        }
        if entries.settles(command) {
            self.set(user, Freshness::Fresh);
        }
        if *answer == Answer::Chose(None) && self.of(user) != Freshness::Unknown {
            self.set(user, Freshness::FreshAfterNone);
        }
    }
}
