// A client has one request open at most, known by its number, and takes only the answer to it.
#![tactic(auto)]

mod client;
mod fault;

pub use client::{Answer, Client, Waiting, correction_request, read_request};
pub use fault::ClientFault;
