//! Procedures as a registry holds them: a name, a signature, a meaning and a body.
ghost use Rattle.std.specs.Prelude.{◌≡◌};
ghost use Rattle.std.specs.String.{string_bytes};
ghost use Rattle.pw_procs.specs.Signature.{FitSignature, IsSignatureOf, IsOfOutputKind};
ghost use Rattle.pw_procs.specs.Signature.{IsValueUnder, signature_value};

use crate::meaning::Meaning;
use crate::signature::Signature;
use pw_info::Info;

/// The code of a procedure: from the informations of its inputs to the information of its output.
pub type Body = Box<dyn Fn(&[Info]) -> Info>;

/// A procedure: a name, what it takes and gives, what it means, and a body that gives its meaning's
/// value on every list that fits. The maker of a procedure proves that; the caller needs only the
/// meaning.
#[derive(Drop)]
pub struct Stored {
    name: String,
    signature: Signature,
    meaning: Meaning,
    body: Body,
    ghost slots: { ∥ IsSignatureOf meaning signature ∥₁ },
    ghost callable: { (p : _) → FitSignature signature p.now → Body.pre body p },
    ghost gives: { (p : _) (r : _) → Body.post body p r → IsValueUnder signature meaning p.now r },
}

impl Stored {
    /// The procedure with this name, signature, meaning and body. The signature is one of the
    /// meaning. The body may be called on every list that fits, and gives the meaning's value
    /// there. Takes no memory.
    pub fn new(name: String, signature: Signature, meaning: Meaning, body: Body) -> Stored
        requires slots { IsSignatureOf meaning signature }
        requires callable { (p : _) → FitSignature signature p.now → Body.pre body p }
        requires gives { (p : _) (r : _) → Body.post body p r
            → IsValueUnder signature meaning p.now r }
        ensures name { string_bytes result.name ≡ string_bytes name }
        ensures signature { result.signature ≡ signature }
        ensures meaning { result.meaning ≡ meaning }
    {
        Stored {
            name,
            signature,
            meaning,
            body,
        }
    }

    /// The value of its meaning on inputs that fit.
    pub fn call(&self, inputs: &[Info]) -> Info
        requires { FitSignature self.now.signature inputs.now }
        ensures { result ≡ signature_value self.now.signature self.now.meaning inputs.now }
    {
        (self.body)(inputs)
    }

    pub fn name(&self) -> &str
        ensures { result.now ≡ string_bytes self.now.name }
    {
        self.name.as_str()
    }

    /// What it takes and gives. Its values on inputs that fit are of the kind of the output.
    pub fn signature(&self) -> &Signature
        ensures signature { result.now ≡ self.now.signature }
        ensures kind { IsOfOutputKind self.now.signature self.now.meaning }
    {
        &self.signature
    }
}
