// The spool that an argument names: `slots:COUNTxSIZE` or `log:OCTETS/ROWS`, with up to two `quota:ENTRIES/OCTETS,` before it.
use crate::lines::number;
use std::error::Error;
use std::fmt;
use std::str::FromStr;

// How many entries a quota layer allows to a mailbox, and how many octets.
#[derive(Clone, Copy)]
pub struct Limits {
    pub entries: usize,
    pub octets: usize,
}

// The quota layers over a store.
#[derive(Clone, Copy)]
pub enum Layers {
    Zero,
    One(Limits),
    Two { top: Limits, next: Limits },
}

#[derive(Clone, Copy)]
pub enum Store {
    Slots { count: usize, size: usize },
    Log { octets: usize, rows: usize },
}

#[derive(Clone, Copy)]
pub struct Choice {
    pub layers: Layers,
    pub store: Store,
}

// The argument names no spool.
#[derive(Clone, Copy, Debug)]
pub struct NoSpool;

impl fmt::Display for NoSpool {
    fn fmt<W: fmt::Write>(&self, f: &mut fmt::Formatter<W>) -> fmt::Result {
        write!(
            f,
            "SPOOL is slots:COUNTxSIZE or log:OCTETS/ROWS, with up to two quota:ENTRIES/OCTETS, before it"
        )
    }
}

impl Error for NoSpool {}

// Two numbers with a character between them.
fn pair(text: &str, between: char) -> Option<(usize, usize)> {
    let (left, right) = text.split_once(between)?;
    Some((number(left.as_bytes())?, number(right.as_bytes())?))
}

impl FromStr for Limits {
    type Err = NoSpool;

    fn from_str(text: &str) -> Result<Limits, NoSpool> {
        let numbers = text.strip_prefix("quota:").ok_or(NoSpool)?;
        let (entries, octets) = pair(numbers, '/').ok_or(NoSpool)?;
        Ok(Limits { entries, octets })
    }
}

impl FromStr for Layers {
    type Err = NoSpool;

    fn from_str(text: &str) -> Result<Layers, NoSpool> {
        match text.split_once(',') {
            None => Ok(Layers::One(text.parse()?)),
            Some((top, next)) => Ok(Layers::Two {
                top: top.parse()?,
                next: next.parse()?,
            }),
        }
    }
}

impl FromStr for Store {
    type Err = NoSpool;

    fn from_str(text: &str) -> Result<Store, NoSpool> {
        if let Some(numbers) = text.strip_prefix("slots:") {
            let (count, size) = pair(numbers, 'x').ok_or(NoSpool)?;
            return Ok(Store::Slots { count, size });
        }
        let numbers = text.strip_prefix("log:").ok_or(NoSpool)?;
        let (octets, rows) = pair(numbers, '/').ok_or(NoSpool)?;
        Ok(Store::Log { octets, rows })
    }
}

impl FromStr for Choice {
    type Err = NoSpool;

    fn from_str(text: &str) -> Result<Choice, NoSpool> {
        let (layers, store) = match text.rsplit_once(',') {
            None => (Layers::Zero, text),
            Some((quotas, store)) => (quotas.parse()?, store),
        };
        Ok(Choice {
            layers,
            store: store.parse()?,
        })
    }
}
