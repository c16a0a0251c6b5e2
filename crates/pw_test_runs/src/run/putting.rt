//! An end that takes bytes: what it takes of a text, and where it fails.

use crate::ends::{Failing, Sink};
use pw_info::{Failed, Output, Writing, put_all};
use std::test::Fail;

#[test]
fn passes_the_text_or_a_front(rt: HostRuntime) -> Result<(), Fail> {
    let text = b"one byte at a time";
    for breaks_at in 0..20usize {
        let breaks = breaks_at < text.len();
        let mut output = Writing::new(Sink::new(rt.alloc(), breaks_at, Failing::Once));
        let answer = put_all(&mut output, text);
        assert_eq!(rt; answer.is_err(), breaks, "at {breaks_at}");
        assert_eq!(rt; output.failed(), breaks, "at {breaks_at}");
        if breaks {
            assert_eq!(rt; output.put(text), Err(Failed), "at {breaks_at}");
            assert_eq!(rt; output.put(b""), Err(Failed), "at {breaks_at}");
        }
        assert_eq!(rt;
            output.into_writer().text.as_slice(),
            &text[..breaks_at.min(text.len())],
            "at {breaks_at}"
        );
    }
    Ok(())
}
