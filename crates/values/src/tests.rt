// A text that fills the room there is.
use crate::text::write_plain;
use std::fmt;
use std::process::Abort;

// A value that tells itself in 64 bytes.
struct Longest;

impl fmt::Display for Longest {
    fn fmt<W: fmt::Write>(&self, f: &mut fmt::Formatter<W>) -> fmt::Result {
        write_plain(
            f,
            "0123456789012345678901234567890123456789012345678901234567890123",
        )
    }
}

#[test]
fn text_of_64_bytes_is_written(rt: HostRuntime) {
    let Ok(text) = format!(in rt.alloc(); "{Longest}") else {
        assert!(rt; false);
        return;
    };
    assert_eq!(rt;
        text.as_str(),
        "0123456789012345678901234567890123456789012345678901234567890123"
    );
}
