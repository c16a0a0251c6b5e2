//! What the reply to a command comes to for a host, and the faults of a host.

ghost use Rattle.std.specs.Prelude.{◌≡◌, IfOk, IfErr, OnOk};
ghost use Rattle.pw_sessions.specs.Reply as reply;
ghost use Rattle.pw_sessions.specs.Reply.{reply_by};

use pw_decl::DeclFault;
use pw_info::Info;
use pw_sessions::Reply;
use std::alloc::AllocError;
use thiserror::Error;

/// Why a host has no answer.
#[derive(Clone, Copy, Debug, PartialEq, Eq, Error)]
pub enum HostFault {
    /// The text is no declaration, or memory ran out while it was read.
    #[error(transparent)]
    Declaration(DeclFault),
    /// The declaration lacks what the host needs.
    #[error("the declaration lacks a user or a cell")]
    Lacking,
    /// Out of memory.
    #[error("memory")]
    Memory,
}

impl From<AllocError> for HostFault {
    ghost use Rattle.pw_uses.specs.declared.answer.HostFault.TheVariants.{Memory};

    ghost from_gives = { λ _ fault. fault ≡ Memory };

    fn from(_: AllocError) -> HostFault {
        HostFault::Memory
    }
}

impl From<DeclFault> for HostFault {
    ghost use Rattle.pw_uses.specs.declared.answer.HostFault.TheVariants.{Declaration};

    ghost from_gives = { λ fault given. given ≡ Declaration fault };

    fn from(fault: DeclFault) -> HostFault {
        HostFault::Declaration(fault)
    }
}

/// What comes of a command that tells or changes something: out of memory, or nothing more.
pub(crate) fn done(given: Reply) -> Result<(), HostFault>
    ensures ok { OnOk result (reply_by given ≡ reply.Done) }
    ensures err { IfErr result (λ fault. fault ≡ HostFault.Memory) }
{
    match given {
        Reply::Done => Ok(()),
        _ => Err(HostFault::Memory),
    }
}

/// What comes of a question for a value: out of memory, or the value.
pub(crate) fn value(given: Reply) -> Result<Info, HostFault>
    ensures ok { IfOk result (λ info. reply_by given ≡ reply.Value info) }
    ensures err { IfErr result (λ fault. fault ≡ HostFault.Memory) }
{
    match given {
        Reply::Value(info) => Ok(info),
        _ => Err(HostFault::Memory),
    }
}
