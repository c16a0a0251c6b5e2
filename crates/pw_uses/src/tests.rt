//! The replies to a transcript: those of `examples/two_users`.

use crate::transcript::replies;
use pw_decl::{DeclFault, DeclFaultKind};
use std::test::Fail;

const DECLARATION: &str = "workbench 1
# general
user ann
user bob
premise a
premise b
premise c
premise mine of bob
cell x interval
cell y interval
";

const TRANSCRIPT: &str = "ann tell x 1..2 under a
bob tell x 3..4 under b
ann ask x
ann doubt b
ann ask x
bob ask x
ann believe b
ann ask x
";

const REPLIES: &str = "1: ok
2: ok
3: contradiction
4: ok
5: 1..2
6: contradiction
7: ok
8: contradiction
";

#[test]
fn replies_to_two_users(rt: HostRuntime) -> Result<(), Fail> {
    let replies = replies(rt.alloc(), DECLARATION.as_bytes(), TRANSCRIPT.as_bytes())??;
    assert_eq!(rt; replies.as_slice(), REPLIES.as_bytes());
    Ok(())
}

// Line 2 has a fault.
#[test]
fn a_faulty_text_has_no_replies(rt: HostRuntime) -> Result<(), Fail> {
    let fault = DeclFault {
        line: 2,
        why: DeclFaultKind::UnknownName,
    };
    let replied = replies(rt.alloc(), b"workbench 1\ncell x height\n", b"ann ask x\n");
    assert!(rt; matches!(replied, Err(found) if found == fault));
    Ok(())
}
