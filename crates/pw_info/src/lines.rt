//! The lines of a text.

ghost use Rattle.std.specs.Prelude.{◌≡◌, ℕ, ◌∷◌, ◌++◌, ◌↔◌, ◌≤◌, List, length, IfSome, IfNone};
ghost use Rattle.std.specs.List.{prefix_len};
ghost use Rattle.pw_info.specs.Lines as spec;

use crate::lanes::{LANES, before_line_feed};

// The number of bytes before the first line feed.
fn line_len(bytes: &[u8]) -> usize
    ensures value { result ≡ prefix_len spec.is_of_line bytes.now }
    ensures within { result ≤ length bytes.now }
{
    let mut end = 0;
    while bytes.len() - end >= LANES {
        if let Some(run) = before_line_feed(bytes, end) {
            return end + run;
        }
        end += LANES;
    }
    while end < bytes.len() && bytes[end] != b'\n' {
        end += 1;
    }
    end
}

/// The parts before and after the first line feed; `None` if there is no line feed.
pub fn next_line(bytes: &[u8]) -> Option<(&[u8], &[u8])>
    ensures some { IfSome result (λ parts. spec.BeginsWithLine bytes.now parts.0.now parts.1.now) }
    ensures none { IfNone result (spec.HasNoEnd bytes.now) }
{
    let end = line_len(bytes);
    if end == bytes.len() {
        return None;
    }
    Some((&bytes[..end], &bytes[end + 1..]))
}
