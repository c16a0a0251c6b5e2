//! The test of a name of a user, a premise, a set kind, a member, a cell.
ghost use Rattle.std.specs.Prelude.{◌≡◌, ◌∷◌, [], codes};
ghost use Rattle.std.specs.List.{list_all, list_any};
ghost use Rattle.std.specs.Str.{bytes_eq};
ghost use Rattle.pw_info.specs.Name as spec;

const MOST_BYTES: usize = 32;

fn is_letter(byte: u8) -> bool
    ensures { result ≡ spec.is_letter byte }
{
    b'a' <= byte && byte <= b'z'
}

fn is_name_byte(byte: u8) -> bool
    ensures { result ≡ spec.is_name_byte byte }
{
    is_letter(byte) || (b'0' <= byte && byte <= b'9') || byte == b'_'
}

fn begins_with_letter(word: &[u8]) -> bool
    ensures { result ≡ spec.begins_with_letter word.now }
{
    match word {
        [first, ..] => is_letter(*first),
        [] => false,
    }
}

// One of the reserved words of declarations.
fn is_reserved_in_declarations(word: &[u8]) -> bool
    ensures { result ≡ list_any (bytes_eq word.now)
        (codes "line" ∷ codes "of" ∷ codes "local" ∷ codes "end" ∷ []) }
{
    word == b"line".as_slice()
        || word == b"of".as_slice()
        || word == b"local".as_slice()
        || word == b"end".as_slice()
}

#[tactic(auto, unfolding(crate::specs::Name::is_reserved))]
fn is_reserved(word: &[u8]) -> bool
    ensures { result ≡ spec.is_reserved word.now }
{
    word == b"under".as_slice()
        || word == b"none".as_slice()
        || word == b"nothing".as_slice()
        || word == b"contradiction".as_slice()
        || is_reserved_in_declarations(word)
}

fn are_name_bytes(word: &[u8]) -> bool
    ensures { result ≡ list_all spec.is_name_byte word.now }
{
    word.iter().all(|byte| is_name_byte(*byte))
}

/// Whether the word is a name: 1 to 32 bytes of `a` to `z`, `0` to `9` and `_`, starting with a
/// letter, and not one of the words `under`, `none`, `nothing`, `contradiction`, `line`, `of`,
/// `local` and `end`.
#[tactic(auto, unfolding(crate::specs::Name::is_name))]
pub fn is_name(word: &[u8]) -> bool
    ensures { result ≡ spec.is_name word.now }
{
    word.len() <= MOST_BYTES
        && begins_with_letter(word)
        && are_name_bytes(word)
        && !is_reserved(word)
}
