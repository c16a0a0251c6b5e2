//! Tests 16 bytes together: how many of them come before one that ends a word or a line.
ghost use Rattle.std.specs.Prelude.{◌≡◌, ◌+◌, ◌<◌, ◌≤◌, length, take, drop, IfSome};
ghost use Rattle.std.specs.List.{prefix_len};
ghost use Rattle.pw_info.specs.inside.Scanning.{lowest_set, short_of};
ghost use Rattle.pw_info.specs.Lines.{is_of_line};
ghost use Rattle.pw_info.specs.Words.{is_plain};

use std::simd::prelude::*;

/// This many bytes are tested together.
pub(crate) const LANES: usize = 16;

// The place of the lowest bit that is set.
fn lowest_set(mask: u64) -> Option<usize>
    ensures { result ≡ lowest_set mask }
{
    if mask == 0 {
        return None;
    }
    Some(mask.trailing_zeros() as usize)
}

/// The number of the 16 bytes from a place on that come before the first blank; `None` if none is
/// blank.
pub(crate) fn before_blank(bytes: &[u8], at: usize) -> Option<usize>
    requires { at + 16 ≤ length bytes.now }
    ensures value { result ≡ short_of 16 (prefix_len is_plain (take 16 (drop at bytes.now))) }
    ensures within { IfSome result (λ run. run < 16) }
{
    let lanes = u8x16::from_slice(&bytes[at..]);
    let spaces = lanes.simd_eq(u8x16::splat(b' '));
    let tabs = lanes.simd_eq(u8x16::splat(b'\t'));
    let returns = lanes.simd_eq(u8x16::splat(b'\r'));
    lowest_set((spaces | tabs | returns).to_bitmask())
}

/// The number of the 16 bytes from a place on that come before the first line feed; `None` if there
/// is none.
pub(crate) fn before_line_feed(bytes: &[u8], at: usize) -> Option<usize>
    requires { at + 16 ≤ length bytes.now }
    ensures value { result ≡ short_of 16 (prefix_len is_of_line (take 16 (drop at bytes.now))) }
    ensures within { IfSome result (λ run. run < 16) }
{
    let lanes = u8x16::from_slice(&bytes[at..]);
    lowest_set(lanes.simd_eq(u8x16::splat(b'\n')).to_bitmask())
}
