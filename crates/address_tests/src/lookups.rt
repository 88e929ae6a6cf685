// Which mailbox a directory means, or none.
use directory::address_list::Addresses;
use directory::directory::Directory;
use directory::domain_list::Domains;
use directory::listing::Listing;
use directory::row::DirectoryRow;
use directory::spelling::Spelling;
use std::alloc::Global;
use std::process::Abort;
use std::test::Fail;

// A list of some spellings, one behind the other in its text, with their mailboxes.
fn listed<S: Spelling>(heap: Global, spellings: &[(&str, usize)]) -> Result<Listing<S>, Fail> {
    let mut text = Vec::new(heap);
    let mut rows = Vec::new(heap);
    for (spelling, mailbox) in spellings {
        rows.push(DirectoryRow {
            offset: text.len(),
            length: spelling.len(),
            mailbox: *mailbox,
        })?;
        text.extend_from_slice(spelling.as_bytes())?;
    }
    Ok(Listing::new(text, rows).map_err(|rejected| rejected.refusal)?)
}

// That a directory means these mailboxes for local parts and domains, or none.
fn means<D: Directory>(rt: &impl Abort, directory: &D, cases: &[(&str, &str, Option<usize>)]) {
    for (local, domain, mailbox) in cases {
        let found = directory.mailbox(local.as_bytes(), domain.as_bytes());
        assert_eq!(rt; found, *mailbox, "{}", *local);
    }
}

const ADDRESSES: [(&str, usize); 10] = [
    ("Alice@Example.com", 5),
    ("alice@example.COM", 6),
    ("alice@example.com", 10),
    ("a.b@c", 0),
    ("\"a.b\"@c", 63),
    ("\"a@b\"@c", 7),
    ("PostMaster@c", 8),
    ("postmaster@C", 9),
    ("\"postmaster\"@d", 11),
    ("\"\"@d", 12),
];

const BY_ADDRESS: [(&str, &str, Option<usize>); 19] = [
    // domains in any case, local parts as written; the first row that fits decides
    ("Alice", "EXAMPLE.com", Some(5)),
    ("alice", "example.com", Some(6)),
    ("ALICE", "example.com", None),
    ("Alice", "example.co", None),
    ("Alice", "example.comm", None),
    ("Alic", "example.com", None),
    // quote marks count
    ("a.b", "C", Some(0)),
    ("\"a.b\"", "c", Some(63)),
    ("\"a@b\"", "c", Some(7)),
    ("a@b", "c", None),
    ("\"\"", "d", Some(12)),
    ("", "d", None),
    // postmaster in any case
    ("pOSTMASTEr", "c", Some(8)),
    ("postmaster", "C", Some(8)),
    ("\"postmaster\"", "c", None),
    ("\"postmaster\"", "d", Some(11)),
    ("\"Postmaster\"", "d", None),
    ("postmaster", "d", None),
    ("", "", None),
];

#[test]
fn by_address(rt: HostRuntime) -> Result<(), Fail> {
    means(
        &rt,
        &listed::<Addresses>(rt.alloc(), &ADDRESSES)?,
        &BY_ADDRESS,
    );
    Ok(())
}

const BY_DOMAIN: [(&str, &str, Option<usize>); 9] = [
    ("a", "c", Some(1)),
    ("Postmaster", "C", Some(1)),
    ("\"a@b\"", "example.com", Some(2)),
    ("", "EXAMPLE.com", Some(2)),
    ("..@", "D-E", Some(63)),
    ("a", "F.c", Some(0)),
    ("a", "example.org", None),
    ("a", "example", None),
    ("a", "", None),
];

#[test]
fn by_domain(rt: HostRuntime) -> Result<(), Fail> {
    let spellings = [
        ("c", 1),
        ("Example.COM", 2),
        ("C", 3),
        ("d-e", 63),
        ("f.c", 0),
    ];
    means(&rt, &listed::<Domains>(rt.alloc(), &spellings)?, &BY_DOMAIN);
    let empty = listed::<Domains>(rt.alloc(), &[])?;
    means(&rt, &empty, &[("a", "c", None), ("", "", None)]);
    Ok(())
}
