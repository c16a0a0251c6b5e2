//! An end that gives bytes: what it gives of a text, and where it fails.

use crate::ends::Drip;
use pw_info::Failed;
use pw_transcript::{Input, Reading};
use std::process::Abort;
use std::test::Fail;

const TEXT: &str = "one byte at a time";

// Checks that the end gives the text up to the byte at which it fails, if it does.
fn gives_a_front<R: Abort + AllocGlobal>(
    rt: &R,
    input: &mut Reading<Drip<'_>>,
    breaks_at: usize,
) -> Result<(), Fail> {
    let mut taken = Vec::new(rt.alloc());
    let mut buffer = [0; 4];
    for _ in 0..TEXT.len() {
        if let Ok(count) = input.take(&mut buffer) {
            taken.extend_from_slice(&buffer[..count])?;
        }
    }
    assert_eq!(rt;
        taken.as_slice(),
        &TEXT.as_bytes()[..breaks_at.min(TEXT.len())],
        "at {breaks_at}"
    );
    assert!(rt; !input.ended(), "at {breaks_at}");
    Ok(())
}

// Checks that an end that failed gives nothing more.
fn stays_failed<R: Abort>(rt: &R, input: &mut Reading<Drip<'_>>, breaks_at: usize) {
    let mut buffer = [0; 4];
    assert_eq!(rt; input.take(&mut buffer), Err(Failed), "at {breaks_at}");
    assert_eq!(rt; input.take(&mut []), Err(Failed), "at {breaks_at}");
}

// Checks that an end that gave its text ends when it is asked for more, and not before.
fn ends_when_asked<R: Abort>(rt: &R, input: &mut Reading<Drip<'_>>, breaks_at: usize) {
    let mut buffer = [0; 4];
    assert_eq!(rt; input.take(&mut []), Ok(0), "at {breaks_at}");
    assert!(rt; !input.ended(), "at {breaks_at}");
    assert_eq!(rt; input.take(&mut buffer), Ok(0), "at {breaks_at}");
}

#[test]
fn takes_the_text_or_a_front(rt: HostRuntime) -> Result<(), Fail> {
    for breaks_at in 0..20usize {
        let breaks = breaks_at <= TEXT.len();
        let mut input = Reading::new(Drip::new(TEXT, breaks_at));
        gives_a_front(&rt, &mut input, breaks_at)?;
        if breaks {
            stays_failed(&rt, &mut input, breaks_at);
        } else {
            ends_when_asked(&rt, &mut input, breaks_at);
        }
        assert_eq!(rt; input.failed(), breaks, "at {breaks_at}");
        assert_eq!(rt; input.ended(), !breaks, "at {breaks_at}");
    }
    Ok(())
}
