// The paths of MAIL and RCPT, and the parts of a path.
use paths::envelope::{
    ForwardPath, ReversePath, domain_of, forward_path, local_part_of, reverse_path,
};
use std::test::Fail;

// where the path of MAIL ends, and that of RCPT, or the number of the fault
const COMMANDS: [(&str, Result<usize, u8>, Result<usize, u8>); 23] = [
    ("<>", Ok(2), Err(2)),
    ("<> SIZE=9", Ok(2), Err(2)),
    ("<>@b>", Ok(2), Err(2)),
    ("< >", Err(2), Err(2)),
    ("<", Err(2), Err(2)),
    (">", Err(1), Err(1)),
    ("", Err(1), Err(1)),
    ("<Postmaster>", Err(3), Ok(12)),
    ("<POSTMASTER>", Err(3), Ok(12)),
    ("<pOSTmaSTER> NOTIFY=NEVER", Err(3), Ok(12)),
    ("<Postmaster", Err(3), Err(3)),
    ("<Postmaster >", Err(3), Err(3)),
    ("<Postmaste>", Err(3), Err(3)),
    ("<Postmasters>", Err(3), Err(3)),
    ("<Postmastex>", Err(3), Err(3)),
    ("<\"Postmaster\">", Err(3), Err(3)),
    ("Postmaster>", Err(1), Err(1)),
    ("<Postmaster@c>", Ok(14), Ok(14)),
    ("<a@b>", Ok(5), Ok(5)),
    ("<a@b>>", Ok(5), Ok(5)),
    ("<.a@b>", Err(2), Err(2)),
    ("<a@b-c->", Err(3), Err(3)),
    ("<a@b", Err(4), Err(4)),
];

#[test]
fn of_mail_and_rcpt(rt: HostRuntime) {
    for (text, mail, rcpt) in COMMANDS {
        let octets = text.as_bytes();
        let sender = reverse_path(octets).map(ReversePath::end);
        assert_eq!(rt; sender.map_err(u8::from), mail, "{}", text);
        let recipient = forward_path(octets).map(ForwardPath::end);
        assert_eq!(rt; recipient.map_err(u8::from), rcpt, "{}", text);
    }
}

// the path of RCPT, its local part and its domain, where the receiver's name is mx.Example
const PARTS: [(&str, &str, &str); 8] = [
    ("<a@b>", "a", "b"),
    ("<a.B@C-d.e> NOTIFY=NEVER", "a.B", "C-d.e"),
    ("<\"\"@c>", "\"\"", "c"),
    ("<\"a@b\"@c>", "\"a@b\"", "c"),
    ("<\"a\\\"b\"@c>", "\"a\\\"b\"", "c"),
    ("<PostMaster>", "PostMaster", "mx.Example"),
    ("<postmaster> <a@b>", "postmaster", "mx.Example"),
    ("<Postmaster@b>", "Postmaster", "b"),
];

#[test]
fn of_a_path(rt: HostRuntime) -> Result<(), Fail> {
    for (text, local, domain) in PARTS {
        let line = text.as_bytes();
        let path = forward_path(line)?;
        assert!(rt; local_part_of(line, path) == local.as_bytes(), "{}", text);
        assert!(rt;
            domain_of(line, b"mx.Example", path) == domain.as_bytes(),
            "{}",
            text
        );
    }
    Ok(())
}
