// Edges of the schedules: what a write, a read and an enable take, and one past it.
use crate::{Case, show_all};

// Hours and minutes, where 24 and 60 come together.
fn times() -> [Case; 5] {
    [
        (
            "hour 23",
            b"\x010A0A26\x02C22200173B173B0000000000000000000000\x03t\x0D",
        ),
        (
            "hour 24 with minute 60",
            b"\x010A0A26\x02C22200183C183C0000000000000000000000\x03t\x0D",
        ),
        (
            "hour 24 with minute 59",
            b"\x010A0A26\x02C22200183B183C0000000000000000000000\x03u\x0D",
        ),
        (
            "hour 23 with minute 60",
            b"\x010A0A26\x02C22200183C173C0000000000000000000000\x03{\x0D",
        ),
        (
            "hour 25",
            b"\x010A0A26\x02C22200193C183C0000000000000000000000\x03u\x0D",
        ),
    ]
}

// The other fields, and the last of the reserved numbers.
fn limits() -> [Case; 5] {
    [
        (
            "WEEK 7F",
            b"\x010A0A26\x02C22200183C183C007F000000000000000000\x03\x05\x0D",
        ),
        (
            "WEEK 80",
            b"\x010A0A26\x02C22200183C183C0080000000000000000000\x03|\x0D",
        ),
        (
            "FL 07",
            b"\x010A0A26\x02C22200183C183C0000070000000000000000\x03s\x0D",
        ),
        (
            "FL 08",
            b"\x010A0A26\x02C22200183C183C0000080000000000000000\x03|\x0D",
        ),
        (
            "EXT7 01",
            b"\x010A0A26\x02C22200183C183C0000000000000000000001\x03u\x0D",
        ),
    ]
}

// The last input, and one that there is not.
fn inputs() -> [Case; 2] {
    [
        (
            "INPUT 17",
            b"\x010A0A26\x02C22200183C183C1100000000000000000000\x03t\x0D",
        ),
        (
            "INPUT 4",
            b"\x010A0A26\x02C22200183C183C0400000000000000000000\x03p\x0D",
        ),
    ]
}

// The last program, and one past it.
fn programs() -> [Case; 7] {
    [
        (
            "write of program 6",
            b"\x010A0A26\x02C22206183C183C0000000000000000000000\x03r\x0D",
        ),
        (
            "write of program 7",
            b"\x010A0A26\x02C22207183C183C0000000000000000000000\x03s\x0D",
        ),
        ("read of program 6", b"\x010A0A08\x02C22106\x03}\x0D"),
        ("read of program 7", b"\x010A0A08\x02C22107\x03|\x0D"),
        ("enable of program 6", b"\x010A0A0A\x02C2150601\x03\x02\x0D"),
        ("enable of program 7", b"\x010A0A0A\x02C2150701\x03\x03\x0D"),
        ("enable 2", b"\x010A0A0A\x02C2150002\x03\x07\x0D"),
    ]
}

// All of them.
pub fn all(rt: &impl Print) {
    show_all(rt, &times());
    show_all(rt, &limits());
    show_all(rt, &inputs());
    show_all(rt, &programs());
}
