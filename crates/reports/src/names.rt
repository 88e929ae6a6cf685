// The rows of a directory file, and the mailbox that a path leads to.
use crate::lines::numbered;
use anyhow::Context;
use directory::directory::Directory;
use directory::row::DirectoryRow;
use paths::envelope::{domain_of, forward_path, local_part_of};
use paths::path::PathFault;
use std::alloc::Global;
use std::fmt;

// Why a path leads to no mailbox.
#[derive(Clone, Copy)]
pub enum Lost {
    Fault(PathFault),
    Behind,
    Nobody,
}

impl From<PathFault> for Lost {
    fn from(fault: PathFault) -> Lost {
        Lost::Fault(fault)
    }
}

impl fmt::Display for Lost {
    fn fmt<W: fmt::Write>(&self, f: &mut fmt::Formatter<W>) -> fmt::Result {
        match self {
            Lost::Fault(fault) => write!(f, "bad path, fault {fault}"),
            Lost::Behind => write!(f, "something stands behind the path"),
            Lost::Nobody => write!(f, "nobody has that name"),
        }
    }
}

// The mailbox of a path that is all of some octets, by a directory and the receiver's own name.
pub fn resolve<D: Directory>(directory: &D, name: &[u8], octets: &[u8]) -> Result<usize, Lost> {
    let path = forward_path(octets)?;
    if path.end() != octets.len() {
        return Err(Lost::Behind);
    }
    let local = local_part_of(octets, path);
    let domain = domain_of(octets, name, path);
    directory.mailbox(local, domain).ok_or(Lost::Nobody)
}

// The text and the rows that a directory file spells.
#[derive(Drop)]
pub struct DirectoryFile {
    pub text: Vec<u8>,
    pub rows: Vec<DirectoryRow>,
}

impl DirectoryFile {
    // The rows of a file, one to a line; blank lines and lines that begin with # are passed over.
    pub fn parse(heap: Global, octets: &[u8]) -> anyhow::Result<DirectoryFile> {
        let mut file = DirectoryFile {
            text: Vec::new(heap),
            rows: Vec::new(heap),
        };
        for line in octets.split(|x| *x == b'\n') {
            let line = line.trim_ascii();
            if !line.is_empty() && !line.starts_with(b"#") {
                file.add(line)?;
            }
        }
        Ok(file)
    }

    // Adds a row: the spelling, and the mailbox behind the last space.
    fn add(&mut self, line: &[u8]) -> anyhow::Result<()> {
        let (spelling, mailbox) = numbered(line).context(
            "a directory line is a spelling, a space and a mailbox",
        )?;
        self.rows.push(DirectoryRow {
            offset: self.text.len(),
            length: spelling.len(),
            mailbox,
        })?;
        self.text.extend_from_slice(spelling)?;
        Ok(())
    }
}
