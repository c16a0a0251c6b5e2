//! A whole host, from two texts to a third: a declaration, a transcript, and the replies to it.

ghost use Rattle.std.specs.Prelude.{IfOk, IfErr};
ghost use Rattle.pw_standard.specs.Lending.{IsFaultOverStandard, IsOverText};
ghost use Rattle.pw_uses.specs.Replies.{AreRepliesTo};

use pw_decl::{DeclFault, Declaration};
use pw_info::Writing;
use pw_standard::{OverDeclaration, over_text};
use pw_transcript::{Reading, RunFault, run};
use std::alloc::Global;

/// The replies to a transcript, or why not all its lines are answered.
pub type Answered = Result<Vec<u8>, RunFault>;

// Where memory is taken from, and the text of a transcript.
#[derive(Drop)]
struct Transcript<'t>(Global, &'t [u8]);

impl OverDeclaration for Transcript<'_> {
    type Answer = Answered;

    ghost promise = { λ transcript. AreRepliesTo transcript.1.now };

    fn over(self, declaration: &Declaration<'_>) -> Answered {
        let Transcript(alloc, text) = self;
        let mut output = Writing::new(Vec::new(alloc));
        run(alloc, declaration, &mut Reading::new(text), &mut output)?;
        Ok(output.into_writer())
    }
}

/// The replies to a transcript over the declaration of a text. The error is the first fault of the
/// text, or `Memory` if memory runs out while it is read.
pub fn replies(alloc: Global, text: &[u8], transcript: &[u8]) -> Result<Answered, DeclFault>
    ensures ok { IfOk result (IsOverText (AreRepliesTo transcript.now) text.now) }
    ensures err { IfErr result (IsFaultOverStandard text.now) }
{
    over_text(alloc, text, Transcript(alloc, transcript))
}
