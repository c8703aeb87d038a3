// Memories on examples and at their limits. A crate of its own, since a crate with tests is proved twice.
#![tactic(auto)]

#[cfg(test)]
mod creation;
#[cfg(test)]
mod growth;
#[cfg(test)]
mod memories;
#[cfg(test)]
mod ticket;
