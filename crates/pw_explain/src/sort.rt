//! The sorts of names that a line may declare.

use crate::cut::begins_with;
use pw_info::Words;

/// What a name that a line declares names.
#[derive(Clone, Copy, Debug, PartialEq, Eq)]
pub enum Sort {
    /// A user.
    User,
    /// A premise.
    Premise,
    /// A set kind.
    Set,
    /// A cell.
    Cell,
    /// A compound.
    Compound,
    /// A private cell of a compound.
    Local,
}

// The sorts of names that lines outside compounds declare.
const OUTER: [Sort; 5] = [
    Sort::User,
    Sort::Premise,
    Sort::Set,
    Sort::Cell,
    Sort::Compound,
];

impl Sort {
    /// The first word of the lines that declare such a name.
    pub(crate) fn verb(self) -> &'static [u8] {
        match self {
            Sort::User => b"user",
            Sort::Premise => b"premise",
            Sort::Set => b"set",
            Sort::Cell => b"cell",
            Sort::Compound => b"compound",
            Sort::Local => b"local",
        }
    }

    /// The sort of the names that lines outside compounds with this first word declare.
    pub(crate) fn of_verb(verb: &[u8]) -> Option<Sort> {
        for sort in &OUTER {
            if verb == sort.verb() {
                return Some(*sort);
            }
        }
        None
    }

    /// Where the lines stand that declare such a name.
    pub(crate) fn stand(self) -> Stand {
        match self {
            Sort::Local => Stand::Inside,
            _ => Stand::Outside,
        }
    }

    /// The name of this sort that the line declares, if it does.
    pub(crate) fn name_in(self, line: &[u8]) -> Option<&[u8]> {
        let mut words = Words::new(line);
        if words.next() == Some(self.verb()) {
            words.next()
        } else {
            None
        }
    }
}

/// Where a line stands.
#[derive(Clone, Copy, Debug, PartialEq, Eq)]
pub(crate) enum Stand {
    /// It is the header, or stands before it.
    BeforeHeader,
    /// Outside compounds. The line that begins a compound stands there too.
    Outside,
    /// Inside a compound. The line that ends it stands there too.
    Inside,
}

impl Stand {
    /// Where the line stands that comes after a line which is neither blank nor a comment.
    pub(crate) fn after(self, line: &[u8]) -> Stand {
        match self {
            Stand::BeforeHeader => Stand::Outside,
            Stand::Outside => {
                if begins_with(b"compound", line) {
                    Stand::Inside
                } else {
                    Stand::Outside
                }
            }
            Stand::Inside => {
                if begins_with(b"end", line) {
                    Stand::Outside
                } else {
                    Stand::Inside
                }
            }
        }
    }
}
