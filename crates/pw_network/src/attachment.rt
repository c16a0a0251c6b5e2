//! What all instances of an attachment share.
ghost use Rattle.std.specs.Prelude.{◌≡◌, IfOk};

use pw_premises::{CompactSet, PremiseSet};
use smallvec::SmallVec;
use std::alloc::{AllocError, Global};
use std::rc::Rc;

// The line of an attachment, and the premises under which it was made. Its instances share them, but
// one with more than two inputs has an `Attachment` of its own, which holds these inputs too.
#[derive(Debug, Drop)]
pub(crate) struct Attachment {
    pub(crate) line: u32,
    pub(crate) support: CompactSet,
    pub(crate) inputs: SmallVec<u32, 4>,
}

impl Attachment {
    // An attachment at this line, under these premises. Fails only when out of memory.
    pub(crate) fn shared(
        alloc: Global,
        line: u32,
        support: &PremiseSet,
    ) -> Result<Rc<Attachment>, AllocError>
        ensures line { IfOk result (λ made. made.value.line ≡ line) }
        ensures support { IfOk result (λ made. made.value.support ≡ support.now) }
    {
        let support = CompactSet::of(alloc, support)?;
        let inputs = SmallVec::new(alloc);
        Ok(Rc::new(
            alloc,
            Attachment {
                line,
                support,
                inputs,
            },
        )?)
    }

    // The same attachment, with the inputs of one instance. Fails only when out of memory.
    pub(crate) fn with_inputs(
        &self,
        alloc: Global,
        inputs: &[u32],
    ) -> Result<Rc<Attachment>, AllocError>
        ensures line { IfOk result (λ made. made.value.line ≡ self.now.line) }
        ensures support { IfOk result (λ made. made.value.support ≡ self.now.support) }
        ensures inputs { IfOk result (λ made. made.value.inputs.items ≡ inputs.now) }
    {
        let support = CompactSet::of(alloc, &self.support.widen())?;
        let inputs = SmallVec::from_slice(alloc, inputs)?;
        Ok(Rc::new(
            alloc,
            Attachment {
                line: self.line,
                support,
                inputs,
            },
        )?)
    }
}
