// Integers as they are written.

use grift_base::numbers::{integer, is_integer};

#[test]
fn integers_have_values(rt: HostRuntime) {
    for (text, value) in [
        ("0", Some(0)),
        ("+012", Some(12)),
        ("-9223372036854775808", Some(i64::MIN)),
        ("9223372036854775808", None),
    ] {
        let bytes = text.as_bytes();
        assert!(rt; is_integer(bytes) && integer(bytes) == value, "{text}");
    }
    for text in ["", "-", "+ 1", "1.", "--1", "0x1"] {
        assert!(rt; !is_integer(text.as_bytes()), "{text}");
    }
}
