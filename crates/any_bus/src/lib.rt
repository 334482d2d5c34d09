// Code written once for every bus.
#![tactic(auto)]

pub mod calls;
pub mod read_back;

pub use calls::{BusCall, BusReply, answer};
