//! Rules: what a procedure that is given by a table says of some inputs.
ghost use Rattle.std.specs.Prelude.{◌≡◌};

use pw_info::Info;
use std::alloc::AllocError;

/// A rule: what is known about the output if each guard includes its input.
#[derive(Debug, Drop)]
pub struct Rule {
    /// One for each input, of its kind.
    pub guards: Vec<Info>,
    /// Of the output's kind.
    pub result: Info,
}

impl Clone for Rule {
    ghost is_clone = { λ rule copy. (copy.guards.items ≡ rule.guards.items)
        × (copy.result ≡ rule.result) };

    fn clone(&self) -> Result<Rule, AllocError> {
        Ok(Rule {
            guards: self.guards.to_vec(*self.guards.allocator())?,
            result: self.result,
        })
    }
}
