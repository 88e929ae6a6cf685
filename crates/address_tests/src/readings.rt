// Where a path is read to end, and the first fault of what is none.
use crate::octets::{reading, repeated};
use std::test::Fail;

// the text, where "@" stands, and where the path ends
const PATHS: [(&str, usize, usize); 15] = [
    ("<a@b>", 2, 5),
    ("<a.b@c.d>", 4, 9),
    ("<!#$%&'*+-/=?^_`{|}~@c>", 20, 23),
    ("<A-z.0@D-e--f.9>", 6, 16),
    ("<a@1.2>", 2, 7),
    // between quote marks
    ("<\"\"@c>", 3, 6),
    ("<\"a\\\"b\"@c>", 7, 10),
    ("<\"\\\\\"@c>", 5, 8),
    ("<\"\\a\\ \"@c>", 7, 10),
    ("<\"a b\"@c>", 6, 9),
    ("<\"a@b\"@c>", 6, 9),
    ("<\"..>\"@c>", 6, 9),
    // and something behind
    ("<a@b>>", 2, 5),
    ("<a@b> SIZE=9", 2, 5),
    ("<a@b><c@d>", 2, 5),
];

#[test]
fn of_paths(rt: HostRuntime) {
    for (text, at, end) in PATHS {
        assert_eq!(rt; reading(text.as_bytes()), Ok((at, end)), "{}", text);
    }
}

const FAULTS: [(&str, u8); 45] = [
    // no "<"
    ("", 1),
    (" <a@b>", 1),
    ("a@b>", 1),
    (">", 1),
    // no local part
    ("<", 2),
    ("<>", 2),
    ("<@b>", 2),
    ("< a@b>", 2),
    ("<(@b>", 2),
    ("<.a@b>", 2),
    ("<a.@b>", 2),
    ("<a..b@c>", 2),
    ("<.>", 2),
    // a quote mark that is not closed
    ("<\"", 2),
    ("<\"a@b>", 2),
    ("<\"a\\", 2),
    ("<\"a\\\"@b>", 2),
    ("<\"\\\\\\\"@b>", 2),
    // no "@"
    ("<a", 3),
    ("<a>", 3),
    ("<a b@c>", 3),
    ("<a,b@c>", 3),
    ("<a\\@b@c>", 3),
    ("<a\"b\"@c>", 3),
    ("<\"a\"b@c>", 3),
    ("<\"a\".b@c>", 3),
    ("<Postmaster>", 3),
    // no domain
    ("<a@", 3),
    ("<a@>", 3),
    ("<a@.>", 3),
    ("<a@.b>", 3),
    ("<a@b.>", 3),
    ("<a@b..c>", 3),
    ("<a@->", 3),
    ("<a@-b>", 3),
    ("<a@b->", 3),
    ("<a@b-.c>", 3),
    ("<a@b.-c>", 3),
    ("<a@[1.2]>", 3),
    ("<a@_b>", 3),
    // no ">"
    ("<a@b", 4),
    ("<a@b >", 4),
    ("<a@b@c>", 4),
    ("<a@b_c>", 4),
    ("<a@b.c<", 4),
];

#[test]
fn of_faults(rt: HostRuntime) {
    for (text, fault) in FAULTS {
        assert_eq!(rt; reading(text.as_bytes()), Err(fault), "{}", text);
    }
}

// A local part of 64 octets with what stands around it, and labels of 63 with a dot and with ">" behind.
const LOCAL: &str = "<abcdefghijklmnopqrstuvwxyz.ABCDEFGHIJKLMNOPQRSTUVWXYZ.0123456789@";

const LABEL: &str = "abcdefghijklmnopqrstuvwxyz-ABCDEFGHIJKLMNOPQRSTUVWXYZ-012345678.";

const LAST: &str = "abcdefghijklmnopqrstuvwxyz-ABCDEFGHIJKLMNOPQRSTUVWXYZ-012345678>";

// a front, a piece so many times, a back; and what is read
const LIMITS: [(&str, &str, usize, &str, Result<(usize, usize), u8>); 20] = [
    // local parts of 64 octets, and of more
    ("<", "a", 64, "@b>", Ok((65, 68))),
    ("<", "a", 65, "@b>", Err(2)),
    ("<", "a.", 31, "bc@d>", Ok((65, 68))),
    ("<", "a.", 32, "b@c>", Err(2)),
    ("<\"", "a", 62, "\"@b>", Ok((65, 68))),
    ("<\"", "a", 63, "\"@b>", Err(2)),
    ("<\"", "\\\"", 31, "\"@b>", Ok((65, 68))),
    ("<\"", "\\\"", 31, "a\"@b>", Err(2)),
    // the local part is judged first
    ("<", "a", 65, ">", Err(2)),
    ("<", "a", 64, ">", Err(3)),
    // labels of 63 octets, and of 64
    ("<a@", "b", 63, ">", Ok((2, 67))),
    ("<a@", "b", 64, ">", Err(3)),
    ("<a@b.", "c", 63, ".d>", Ok((2, 71))),
    ("<a@b.", "c", 64, ".d>", Err(3)),
    // domains of 255 octets, and of 256
    ("<a@", "b.", 127, "c>", Ok((2, 259))),
    ("<a@", "b.", 127, "cd>", Err(3)),
    ("<a@", LABEL, 3, LAST, Ok((2, 259))),
    ("<a@b.", LABEL, 3, LAST, Err(3)),
    ("<a@", LABEL, 4, ">", Err(3)),
    (LOCAL, LABEL, 3, LAST, Ok((65, 322))),
];

#[test]
fn at_the_limits(rt: HostRuntime) -> Result<(), Fail> {
    for (front, piece, count, back, read) in LIMITS {
        let octets = repeated(rt.alloc(), front, piece, count, back)?;
        assert_eq!(rt; reading(octets.as_slice()), read, "{}", count);
    }
    Ok(())
}

// The fault, if there is one, of what is read with an octet first in the local part and inside it, between quote marks, behind a
// backslash, first in the domain and inside it.
fn around(x: u8) -> [Option<u8>; 6] {
    [
        reading(&[b'<', x, b'@', b'b', b'>']).err(),
        reading(&[b'<', b'a', x, b'a', b'@', b'b', b'>']).err(),
        reading(&[b'<', b'"', x, b'"', b'@', b'b', b'>']).err(),
        reading(&[b'<', b'"', b'\\', x, b'"', b'@', b'b', b'>']).err(),
        reading(&[b'<', b'a', b'@', x, b'>']).err(),
        reading(&[b'<', b'a', b'@', b'b', x, b'b', b'>']).err(),
    ]
}

#[test]
fn at_every_octet(rt: HostRuntime) {
    for x in [0, 9, 10, 13, 31, 127, 128, 192, 255] {
        assert_eq!(rt; around(x), [2, 3, 2, 2, 3, 4].map(Some), "{}", x);
    }
    // how many octets can stand at each of the six places, where ">" inside the domain ends the path
    let mut counts = [0u16; 6];
    for x in 0..=u8::MAX {
        for (count, fault) in counts.iter_mut().zip(around(x)) {
            if fault.is_none() {
                *count = count.wrapping_add(1);
            }
        }
    }
    assert_eq!(rt; counts, [81, 82, 93, 95, 62, 65]);
}
