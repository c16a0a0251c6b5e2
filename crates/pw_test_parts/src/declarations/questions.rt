//! Questions to a declaration, each answered by one value.

use pw_decl::{Callable, Declaration, Step};
use pw_info::{Kind, KindNames};
use pw_testing::texts::joined;
use pw_testing::worlds::{OverDeclaration, over_text};
use std::alloc::Global;
use std::test::Fail;

/// What a test asks of a declaration. What has a number is looked up by its name, and then the name
/// by the number.
#[derive(Clone, Copy, Debug)]
pub enum Question<'a> {
    /// The number of the user of this name.
    User(&'a str),
    /// The number of the premise of this name.
    Premise(&'a str),
    /// The number of the user that the premise of this name belongs to.
    Owner(&'a str),
    /// The number of the cell of this name.
    Cell(&'a str),
    /// The kind of the cell of this name.
    KindOf(&'a str),
    /// The place of the member of this name in the set of this number.
    Place(u8, &'a str),
    /// The callable of this name.
    Callable(&'a str),
    /// Whether the callable of this name takes cells of these kinds.
    Accepts(&'a str, &'a [Kind]),
    /// The line of this number, from 0, of the compound of this name.
    Step(&'a str, usize),
}

/// What a declaration answers.
#[derive(Clone, Copy, PartialEq, Eq)]
pub enum Answer {
    Number(u32),
    Kind(Kind),
    Callable(Callable),
    Accepts(bool),
    Step(Step),
}

fn user(declaration: &Declaration<'_>, name: &str) -> Option<Answer> {
    let number = declaration.user(name.as_bytes())?;
    (declaration.user_name(number) == name).then_some(Answer::Number(u32::from(number)))
}

fn premise(declaration: &Declaration<'_>, name: &str) -> Option<Answer> {
    let number = declaration.premise(name.as_bytes())?;
    (declaration.premise_name(number) == name).then_some(Answer::Number(u32::from(number)))
}

fn owner(declaration: &Declaration<'_>, name: &str) -> Option<Answer> {
    let number = declaration.premise(name.as_bytes())?;
    let owner = declaration.owner(number)?;
    Some(Answer::Number(u32::from(owner)))
}

fn cell(declaration: &Declaration<'_>, name: &str) -> Option<Answer> {
    let number = declaration.cell(name.as_bytes())?;
    (declaration.cell_name(number) == name).then_some(Answer::Number(number))
}

fn kind_of(declaration: &Declaration<'_>, name: &str) -> Option<Answer> {
    let number = declaration.cell(name.as_bytes())?;
    Some(Answer::Kind(declaration.cell_kind(number)))
}

#[tactic(auto, using(std::proofs::lemmas::Option::slice_get_within))]
fn place(declaration: &Declaration<'_>, set: u8, name: &str) -> Option<Answer> {
    let place = declaration.place(set, name.as_bytes())?;
    (declaration.member(set, place) == name).then_some(Answer::Number(u32::from(place)))
}

fn callable(declaration: &Declaration<'_>, name: &str) -> Option<Answer> {
    let callable = declaration.callable(name.as_bytes())?;
    Some(Answer::Callable(callable))
}

fn accepts(declaration: &Declaration<'_>, name: &str, kinds: &[Kind]) -> Option<Answer> {
    let callable = declaration.callable(name.as_bytes())?;
    Some(Answer::Accepts(declaration.accepts(callable, kinds)))
}

fn step(declaration: &Declaration<'_>, name: &str, line: usize) -> Option<Answer> {
    let Callable::Compound(number) = declaration.callable(name.as_bytes())? else {
        return None;
    };
    let step = declaration.steps(number).get(line)?;
    Some(Answer::Step(*step))
}

// Asks a declaration one question.
#[derive(Drop)]
struct Asking<'a> {
    question: Question<'a>,
}

impl OverDeclaration<Global> for Asking<'_> {
    type Answer = Option<Answer>;

    fn over(self, declaration: &Declaration<'_>) -> Option<Answer> {
        match self.question {
            Question::User(name) => user(declaration, name),
            Question::Premise(name) => premise(declaration, name),
            Question::Owner(name) => owner(declaration, name),
            Question::Cell(name) => cell(declaration, name),
            Question::KindOf(name) => kind_of(declaration, name),
            Question::Place(set, name) => place(declaration, set, name),
            Question::Callable(name) => callable(declaration, name),
            Question::Accepts(name, kinds) => accepts(declaration, name, kinds),
            Question::Step(name, line) => step(declaration, name, line),
        }
    }
}

/// What a declaration of these lines answers. The last line is not ended.
pub fn asked(
    alloc: Global,
    lines: &[&str],
    question: Question<'_>,
) -> Result<Option<Answer>, Fail> {
    let text = joined(alloc, lines)?;
    over_text(alloc, alloc, text.as_str(), Asking { question })
}
