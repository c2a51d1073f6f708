// Edges of digits in small letters: bytes next to them, lengths, values, and the letters of names and types, which are capitals.
use crate::{Case, show_all};

// The last digit of a value: a and f, the bytes next to them, and a value that comes back in capitals.
fn values() -> [Case; 5] {
    [
        ("value 000 and 60h", b"\x010A0E0A\x020010000`\x03%\x0D"),
        ("value 000a", b"\x010A0E0A\x020010000a\x03$\x0D"),
        ("value 000f", b"\x010A0E0A\x020010000f\x03#\x0D"),
        ("value 000g", b"\x010A0E0A\x020010000g\x03\"\x0D"),
        ("value 004b", b"\x010A0E0A\x020010004b\x03#\x0D"),
    ]
}

// Length digits, with the check code over the bytes as they come and as they do not.
fn lengths() -> [Case; 4] {
    [
        ("length 0a", b"\x010A0E0a\x0200100064\x03W\x0D"),
        (
            "length 0a with the check code of 0A",
            b"\x010A0E0a\x0200100064\x03w\x0D",
        ),
        ("length 0 and 60h", b"\x010A0E0`"),
        ("length 0g", b"\x010A0E0g"),
    ]
}

// Pages, codes and tag bytes are digits, names and types are not.
fn names() -> [Case; 8] {
    [
        ("page f0 of the erase", b"\x010A0E0A\x02f0010001\x03\"\x0D"),
        (
            "page c2 and code 1a of a Get",
            b"\x010A0C06\x02c21a\x03\x04\x0D",
        ),
        ("name f010", b"\x010A0A06\x02f010\x03P\x0D"),
        ("name c211", b"\x010A0A06\x02c211\x03V\x0D"),
        ("name 01d6", b"\x010A0A06\x0201d6\x03T\x0D"),
        ("name C203d6", b"\x010A0A0C\x02C203d60004\x03V\x0D"),
        ("type a", b"\x010A0a06"),
        (
            "tag 6d4A, then read",
            b"\x010A0A0A\x02F0116d4A\x03!\x0D\x010A0A06\x02F010\x03p\x0D",
        ),
    ]
}

// All of them.
pub fn all(rt: &impl Print) {
    show_all(rt, &values());
    show_all(rt, &lengths());
    show_all(rt, &names());
}
