// Files reports from standard input for their mailboxes, and collects them, for one directory.
use crate::choice::{Choice, Layers, Limits, Store};
use crate::lines::{Line, parse_line};
use crate::names::resolve;
use anyhow::anyhow;
use directory::directory::Directory;
use filing::collect::collect;
use filing::single::file;
use packed::log::PackedLog;
use packed::log::edit::build as build_log;
use packed::row::LogRow;
use quota::layer::Quota;
use slots::row::SlotRow;
use slots::store::SlotStore;
use slots::store::filing::build as build_slots;
use spool::entry::Part;
use spool::interface::Spool;
use std::alloc::Global;
use std::io::{BufRead, BufReader, BufWriter, Read, Stdin, Stdout, Write};

const MOST: usize = 1_048_576;

// Builds the slot store that was chosen.
fn slots_of(heap: Global, count: usize, size: usize) -> anyhow::Result<SlotStore> {
    let octets = vec![in heap; 0u8; count.min(64) * size.min(MOST)]?;
    let row = SlotRow {
        slot: 0,
        length: 0,
        mailbox: 0,
    };
    let rows = vec![in heap; row; count.min(64)]?;
    build_slots(octets, rows).map_err(|_| anyhow!("slots are 1 to 32 of 512 to 65536 octets"))
}

// Builds the log that was chosen.
fn log_of(heap: Global, octets: usize, rows: usize) -> anyhow::Result<PackedLog> {
    let octets = vec![in heap; 0u8; octets.min(MOST)]?;
    let row = LogRow {
        offset: 0,
        length: 0,
        mailbox: 0,
    };
    let rows = vec![in heap; row; rows.min(512)]?;
    build_log(octets, rows).map_err(|_| anyhow!("a log has 512 to 65536 octets and 1 to 256 rows"))
}

// Builds a quota layer with limits.
fn layer<S: Spool + Drop>(below: S, limits: Limits) -> anyhow::Result<Quota<S>> {
    Quota::build(below, limits.entries, limits.octets).map_err(|_| anyhow!(
        "a quota takes 1 to 1000 entries and 512 to 65536 octets"
    ))
}

// What a desk is opened with: the directory and the receiver's own name. The spool is built first, and the desk's memory taken then.
#[derive(Drop)]
pub struct Office<'a, D> {
    pub rt: &'a HostRuntime,
    pub directory: D,
    pub name: &'a [u8],
}

impl<'a, D: Directory + Drop> Office<'a, D> {
    // Builds the spool that was chosen, and serves it.
    pub fn serve_choice(self, choice: Choice) -> anyhow::Result<()> {
        let heap = self.rt.alloc();
        match choice.store {
            Store::Slots { count, size } => {
                self.serve_under(slots_of(heap, count, size)?, choice.layers)
            }
            Store::Log { octets, rows } => {
                self.serve_under(log_of(heap, octets, rows)?, choice.layers)
            }
        }
    }

    // Serves a store under quota layers.
    fn serve_under<S: Spool + Drop>(self, mut store: S, layers: Layers) -> anyhow::Result<()> {
        match layers {
            Layers::Zero => self.serve(&mut store),
            Layers::One(top) => self.serve(&mut layer(store, top)?),
            Layers::Two { top, next } => self.serve(&mut layer(layer(store, next)?, top)?),
        }
    }

    // Opens a desk over standard input and output, and serves a spool there.
    fn serve<S: Spool>(self, spool: &mut S) -> anyhow::Result<()> {
        Desk::new(self.rt, self.directory, self.name)?.serve(spool)
    }
}

// Where reports are taken: the directory, the receiver's own name, the input, the output and a buffer for payloads.
#[derive(Drop)]
struct Desk<'a, D> {
    directory: D,
    name: &'a [u8],
    heap: Global,
    input: BufReader<Stdin>,
    output: BufWriter<Stdout>,
    buffer: Vec<u8>,
}

impl<'a, D: Directory + Drop> Desk<'a, D> {
    // A desk over standard input and output.
    fn new(rt: &HostRuntime, directory: D, name: &'a [u8]) -> anyhow::Result<Desk<'a, D>> {
        let heap = rt.alloc();
        Ok(Desk {
            directory,
            name,
            heap,
            input: BufReader::new(heap, rt.stdin())?,
            output: BufWriter::new(heap, rt.stdout())?,
            buffer: vec![in heap; 0u8; 65536]?,
        })
    }

    // Takes each line of the input, and then collects from each mailbox.
    fn serve<S: Spool>(&mut self, spool: &mut S) -> anyhow::Result<()> {
        // A loop has to end, and how many lines will come is not known
        for _ in 0..u64::MAX {
            let Some(line) = self.next_line()? else {
                break;
            };
            self.answer(spool, line.trim_ascii())?;
        }
        for mailbox in 0..64 {
            self.empty(spool, mailbox)?;
        }
        self.output.flush()?;
        Ok(())
    }

    // The next line of the input, or none at its end.
    fn next_line(&mut self) -> anyhow::Result<Option<Vec<u8>>> {
        let mut line = Vec::new(self.heap);
        let length = self.input.read_until(b'\n', &mut line)?;
        Ok((length > 0).then_some(line))
    }

    // Does what a line asks for, with the octets behind it that belong to it.
    fn answer<S: Spool>(&mut self, spool: &mut S, text: &[u8]) -> anyhow::Result<()> {
        if text.is_empty() {
            return Ok(());
        }
        match parse_line(text) {
            Some(Line::Collect { mailbox }) => self.empty(spool, mailbox)?,
            Some(Line::Report { path, count }) if count <= MOST => {
                self.report(spool, path, count)?;
            }
            Some(Line::Report { count, .. }) => {
                writeln!(
                    self.output,
                    "not filed: {count} octets are more than {MOST}"
                )?;
                self.pass_over(count)?;
            }
            None => writeln!(
                self.output,
                "not understood: expected 'report PATH COUNT' or 'collect MAILBOX'"
            )?,
        }
        Ok(())
    }

    // Files a report for the mailbox that its path leads to, or says why not.
    fn report<S: Spool>(&mut self, spool: &mut S, path: &[u8], count: usize) -> anyhow::Result<()> {
        let mut payload = vec![in self.heap; 0u8; count]?;
        self.input.read_exact(payload.as_mut_slice())?;
        match resolve(&self.directory, self.name, path) {
            Ok(mailbox) => match file(spool, mailbox, payload.as_slice()) {
                Ok(()) => writeln!(self.output, "filed for mailbox {mailbox}: {count} octets")?,
                Err(refusal) => writeln!(
                    self.output,
                    "not filed for mailbox {mailbox}: {refusal}"
                )?,
            },
            Err(lost) => writeln!(self.output, "not filed: {lost}")?,
        }
        Ok(())
    }

    // Passes over octets of the input.
    fn pass_over(&mut self, count: usize) -> anyhow::Result<()> {
        for _ in 0..count {
            self.input.read_exact(&mut [0])?;
        }
        Ok(())
    }

    // Collects all that a mailbox holds, the earliest first.
    fn empty<S: Spool>(&mut self, spool: &mut S, mailbox: usize) -> anyhow::Result<()> {
        for _ in 0..spool.count(Part::Held) {
            let Ok(length) = collect(spool, mailbox, self.buffer.as_mut_slice()) else {
                break;
            };
            writeln!(self.output, "mailbox {mailbox}: {length} octets")?;
            self.output.write_all(&self.buffer[..length])?;
            writeln!(self.output)?;
        }
        Ok(())
    }
}
