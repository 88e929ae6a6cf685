// Tests of paths, of their parts and of directories.
#![tactic(auto)]

#[cfg(test)]
mod builds;
#[cfg(test)]
mod lookups;
#[cfg(test)]
mod octets;
#[cfg(test)]
mod parts;
#[cfg(test)]
mod readings;
