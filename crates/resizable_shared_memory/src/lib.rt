#![tactic(auto)]

pub use pointer_offset::Denial;

pub mod builder;
pub mod claim;
pub mod fault;
mod ledger;
pub mod memory;
pub mod record;
mod segment;
mod table;
pub mod view;
