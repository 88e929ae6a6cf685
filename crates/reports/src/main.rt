// Files reports from standard input for their mailboxes, in a spool that the argument chooses, and collects them in order.
#![tactic(auto)]

mod choice;
mod desk;
mod lines;
mod names;

use address::parts::is_domain;
use anyhow::{Context, anyhow, bail, ensure};
use choice::Choice;
use desk::Office;
use directory::address_list::Addresses;
use directory::domain_list::Domains;
use directory::listing::Listing;
use directory::spelling::Spelling;
use names::DirectoryFile;
use std::{env, fs};

// Builds a directory of the rows of a file, whose octets are let go of then.
fn directory_of<S: Spelling>(rt: &HostRuntime, file: &str) -> anyhow::Result<Listing<S>> {
    let octets = fs::read(rt, file)?;
    let DirectoryFile { text, rows } = DirectoryFile::parse(rt.alloc(), octets.as_slice())?;
    match Listing::<S>::new(text, rows) {
        Ok(directory) => Ok(directory),
        Err(rejected) => {
            eprintln!(rt; "the directory: {}", rejected.refusal)?;
            Err(anyhow!("the directory is refused"))
        }
    }
}

// Serves the spool that was chosen, for the directory of a file.
fn serve<S: Spelling>(
    rt: &HostRuntime,
    name: &[u8],
    file: &str,
    choice: Choice,
) -> anyhow::Result<()> {
    let directory = directory_of::<S>(rt, file)?;
    Office {
        rt,
        directory,
        name,
    }
    .serve_choice(choice)
}

const USAGE: &str = "usage: reports NAME DIRECTORY SPOOL";

fn main(rt: HostRuntime) -> anyhow::Result<()> {
    let mut words = env::args(&rt)?.skip(1);
    let name = words.next().context(USAGE)?;
    let directory = words.next().context(USAGE)?;
    let spool = words.next().context(USAGE)?;
    ensure!(
        name.len() <= 40 && is_domain(name.as_bytes()),
        "NAME is a domain of at most 40 octets"
    );
    let choice: Choice = spool.parse()?;
    match directory.split_once(':') {
        Some(("addresses", file)) => serve::<Addresses>(&rt, name.as_bytes(), file, choice),
        Some(("domains", file)) => serve::<Domains>(&rt, name.as_bytes(), file, choice),
        _ => bail!("a directory is addresses:FILE or domains:FILE"),
    }
}
