//! The part that has come of a line that has not ended.

ghost use Rattle.std.specs.Prelude.{◌≡◌, ◌==◌, ℕ, List, [], ◌++◌, length, option_copied, IsTrue};
ghost use Rattle.pw_transcript.specs.inside.Answering.{held_line};

use std::marker::Model;

// The greatest number of bytes of a line that are held.
const ROOM: usize = 1024;

/// The part that has come of a line that has not ended. At most 1,024 bytes are held. For a longer
/// line, only the fact that more came is kept.
#[derive(Drop)]
pub struct LineBuffer {
    bytes: [u8; ROOM],
    length: usize,
    is_long: bool,
}

impl Model for LineBuffer {
    ghost use Rattle.std.specs.Prelude.{◌≤◌, ℕ, List, Option, Some, None, take, if◌then◌else◌};
    ghost use Rattle.pw_transcript.specs.Limits.{most_command_bytes};

    ghost Value = { Option (List ℕ) };

    ghost view = { λ b. if b.is_long then None else Some (take b.length b.bytes) };

    ghost invariant = { λ b. b.length ≤ most_command_bytes };
}

impl LineBuffer {
    /// Nothing has come.
    pub fn new() -> LineBuffer
        ensures { result ≡ held_line [] }
    {
        LineBuffer {
            bytes: [0; ROOM],
            length: 0,
            is_long: false,
        }
    }

    /// Adds a piece to what has come.
    pub fn extend(&mut self, piece: &[u8])
        ensures { (line : List ℕ) → self.old ≡ held_line line
            → self.new ≡ held_line (line ++ piece.now) }
    {
        if self.is_long {
            return;
        }
        if piece.len() > ROOM - self.length {
            self.is_long = true;
            return;
        }
        let end = self.length + piece.len();
        self.bytes[self.length..end].copy_from_slice(piece);
        self.length = end;
    }

    /// The bytes that came, or `None` if more than 1,024 came.
    pub fn line(&self) -> Option<&[u8]>
        ensures { option_copied result ≡ self.now }
    {
        if self.is_long {
            None
        } else {
            Some(&self.bytes[..self.length])
        }
    }

    /// Forgets what has come.
    pub fn clear(&mut self)
        ensures { self.new ≡ held_line [] }
    {
        self.length = 0;
        self.is_long = false;
    }

    /// Whether nothing has come.
    pub fn is_empty(&self) -> bool
        ensures value { (line : List ℕ) → self.now ≡ held_line line → result ≡ (length line == 0) }
        ensures yes { IsTrue result → self.now ≡ held_line [] }
    {
        !self.is_long && self.length == 0
    }
}
