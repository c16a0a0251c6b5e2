//! Faults of the built-in compounds, and the texts of faults. (`.ci/declarations` tries the first
//! faults of texts on the program.)

use super::counted;
use pw_decl::{DeclFault, DeclFaultKind};
use std::test::Fail;

#[test]
fn registries_that_lack_an_adder(rt: HostRuntime) -> Result<(), Fail> {
    for (names, why) in [
        (["plus", "at_most"], DeclFaultKind::UnknownName),
        (["plus", "adder"], DeclFaultKind::WrongArguments),
    ] {
        for text in ["workbench 1\n", "workbench 3\n"] {
            let declared = counted(rt.alloc(), rt.alloc(), names, text)?;
            assert!(rt; declared == Err(DeclFault { line: 0, why }));
        }
    }
    Ok(())
}

#[test]
fn texts_of_faults(rt: HostRuntime) -> Result<(), Fail> {
    for (why, text) in [
        (DeclFaultKind::Syntax, "syntax"),
        (DeclFaultKind::DuplicateName, "duplicate name"),
        (DeclFaultKind::UnknownName, "unknown name"),
        (DeclFaultKind::WrongArguments, "wrong arguments"),
        (DeclFaultKind::Limit, "limit"),
        (DeclFaultKind::MissingEnd, "missing end"),
        (DeclFaultKind::Memory, "memory"),
    ] {
        assert!(rt; why.to_string(rt.alloc())?.as_str() == text);
    }
    Ok(())
}

#[test]
fn text_of_a_fault_at_its_line(rt: HostRuntime) -> Result<(), Fail> {
    let fault = DeclFault {
        line: 12,
        why: DeclFaultKind::DuplicateName,
    };
    assert_eq!(rt;
        fault.to_string(rt.alloc())?.as_str(),
        "declaration line 12: duplicate name"
    );
    Ok(())
}
