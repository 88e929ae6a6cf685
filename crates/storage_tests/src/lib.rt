// Tests of the stores and of the layers over them, as spools.
#![tactic(auto)]

#[cfg(test)]
mod builds;
#[cfg(test)]
mod lists;
#[cfg(test)]
mod lots;
#[cfg(test)]
mod rooms;
#[cfg(test)]
mod stands;
