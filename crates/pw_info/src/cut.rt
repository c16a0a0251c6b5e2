//! Cutting a text at a byte.
ghost use Rattle.std.specs.Prelude.{◌≡◌, ◌≢◌, ◌∷◌, ◌++◌, slice_index, EachIndex, IfSome, IfNone};

/// The parts before and after the first of this byte in a text; `None` if the text has none.
// Inlined, so that each caller has a loop for its own byte.
#[inline(always)]
pub(crate) fn cut_at(text: &[u8], byte: u8) -> Option<(&[u8], &[u8])>
    ensures some { IfSome result (λ parts. text.now ≡ parts.0.now ++ byte ∷ parts.1.now) }
    ensures first { IfSome result (λ parts.
        EachIndex parts.0.now (λ k. slice_index parts.0.now k ≢ byte)) }
    ensures none { IfNone result (EachIndex text.now (λ k. slice_index text.now k ≢ byte)) }
{
    let at = text.iter().position(|other| *other == byte)?;
    Some((&text[..at], &text[at + 1..]))
}
