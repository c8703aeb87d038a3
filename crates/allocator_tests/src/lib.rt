// The allocators on examples and at their limits. A crate of its own, since a crate with tests is proved twice.
#![tactic(auto)]

#[cfg(test)]
mod bump;
#[cfg(test)]
mod layouts;
#[cfg(test)]
mod pool;
