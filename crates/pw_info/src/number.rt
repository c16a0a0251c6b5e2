//! Reading numbers.
ghost use Rattle.std.specs.Prelude.{ℕ, ℤ, ◌≤◌, IfSome, IfNone};
ghost use Rattle.pw_info.specs.Number.{IsUpTo, SpellsNumber, SpellsPositive, greatest_number};

// Reads a digit 1 to 9 and further digits. Never inlined: inside much other code, its loop would
// keep the number in memory.
#[inline(never)]
fn read_positive(word: &[u8], most: u32) -> Option<u32>
    requires { most ≤ greatest_number }
    ensures some { IfSome result (λ n. SpellsPositive word.now n × (n ≤ most)) }
    ensures none { IfNone result ((n : ℕ) → SpellsPositive word.now n → n ≤ most → ⊥) }
{
    if word.is_empty() || word[0] < b'1' || word[0] > b'9' {
        return None;
    }
    let limit = u64::from(most);
    let mut number: u64 = 0;
    for digit in word {
        if *digit < b'0' || *digit > b'9' {
            return None;
        }
        number = number * 10 + u64::from(*digit - b'0');
        if number > limit {
            return None;
        }
    }
    Some(number as u32)
}

/// Reads the number that a word spells: `0`, or an optional `-`, a digit 1 to 9 and further digits.
///
/// `most` is at most 1,000,000,000. `None` means that the word, of any length, spells no number
/// from `-most` to `most`.
pub(crate) fn read_number(word: &[u8], most: u32) -> Option<i64>
    requires { most ≤ greatest_number }
    ensures some { IfSome result (λ n. SpellsNumber word.now n × IsUpTo most n) }
    ensures none { IfNone result ((n : ℤ) → SpellsNumber word.now n → IsUpTo most n → ⊥) }
{
    if let [b'-', digits @ ..] = word {
        let below = read_positive(digits, most)?;
        return Some(-i64::from(below));
    }
    if let [b'0'] = word {
        return Some(0);
    }
    let above = read_positive(word, most)?;
    Some(i64::from(above))
}
