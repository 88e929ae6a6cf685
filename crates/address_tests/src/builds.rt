// Which builds of directories are refused, and by which number.
use crate::octets::{refused, repeated, row};
use directory::address_list::Addresses;
use directory::domain_list::Domains;
use std::test::Fail;

// a row over the text "a@b.c@d": what the build of an address list says, and of a domain list
const EDGES: [((usize, usize, usize), Result<(), u8>, Result<(), u8>); 20] = [
    ((0, 3, 0), Ok(()), Err(15)),
    ((0, 5, 63), Ok(()), Err(15)),
    ((4, 3, 63), Ok(()), Err(15)),
    ((2, 3, 0), Err(15), Ok(())),
    ((6, 1, 63), Err(15), Ok(())),
    ((6, 1, 64), Err(15), Err(16)),
    // outside, by one octet and by far
    ((4, 4, 0), Err(15), Err(15)),
    ((6, 2, 0), Err(15), Err(15)),
    ((7, 1, 0), Err(15), Err(15)),
    ((8, 0, 0), Err(15), Err(15)),
    ((usize::MAX, 1, 0), Err(15), Err(15)),
    ((1, usize::MAX, 0), Err(15), Err(15)),
    ((usize::MAX, usize::MAX, 0), Err(15), Err(15)),
    // misspelt
    ((0, 0, 0), Err(15), Err(15)),
    ((7, 0, 0), Err(15), Err(15)),
    ((0, 7, 0), Err(15), Err(15)),
    ((0, 4, 0), Err(15), Err(15)),
    ((1, 2, 0), Err(15), Err(15)),
    ((2, 2, 64), Err(15), Err(15)),
    ((3, 2, 0), Err(15), Err(15)),
];

#[test]
fn at_the_texts_edges(rt: HostRuntime) -> Result<(), Fail> {
    for (parts, addresses, domains) in EDGES {
        let text = b"a@b.c@d";
        let rows = [row(parts)];
        assert_eq!(rt;
            refused::<Addresses>(&rt, text, &rows)?,
            addresses,
            "{}",
            parts.0
        );
        assert_eq!(rt;
            refused::<Domains>(&rt, text, &rows)?,
            domains,
            "{}",
            parts.0
        );
    }
    Ok(())
}

// a text of so many octets that begins with "a@b", so many rows but for the last, which spell "a@b" for a mailbox, the
// last row, and what the build says
const ORDER: [(usize, usize, usize, (usize, usize, usize), Result<(), u8>); 16] = [
    (4096, 63, 0, (0, 3, 63), Ok(())),
    (3, 0, 0, (0, 3, 0), Ok(())),
    (4097, 0, 0, (0, 3, 0), Err(14)),
    (4096, 64, 0, (0, 3, 0), Err(14)),
    (4097, 64, 0, (0, 3, 0), Err(14)),
    (4096, 63, 0, (4096, 1, 0), Err(15)),
    (4096, 63, 0, (1, 2, 0), Err(15)),
    (4096, 63, 0, (0, 3, 64), Err(16)),
    (4096, 63, 64, (0, 3, 0), Err(16)),
    (4096, 63, usize::MAX, (0, 3, usize::MAX), Err(16)),
    // several grounds
    (4097, 0, 0, (4097, 1, 64), Err(14)),
    (4096, 64, 64, (4096, 1, 0), Err(14)),
    (4097, 64, 64, (0, 0, 0), Err(14)),
    (4096, 63, 64, (4096, 1, 0), Err(15)),
    (4096, 63, 64, (1, 2, 64), Err(15)),
    (4096, 63, 0, (4097, 0, 64), Err(15)),
];

#[test]
fn in_order(rt: HostRuntime) -> Result<(), Fail> {
    for (octets, count, mailbox, last, number) in ORDER {
        let text = repeated(rt.alloc(), "a@b", "c", octets.saturating_sub(3), "")?;
        let mut rows = vec![in rt.alloc(); row((0, 3, mailbox)); count]?;
        rows.push(row(last))?;
        assert_eq!(rt;
            refused::<Addresses>(&rt, text.as_slice(), rows.as_slice())?,
            number,
            "{}",
            count
        );
    }
    Ok(())
}
