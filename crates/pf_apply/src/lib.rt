//! A mesh built and edited: its table, its lists and its runs of operations.
#![tactic(auto)]

pub mod building;
pub mod listing;
pub mod parts;
pub mod perform;
pub mod relist;
pub mod run;
pub mod sites;
pub mod tables;
