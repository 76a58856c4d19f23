//! Both ends of a connection: what a caller asks is what its server reads, and what the server answers is
//! what the caller is told. Laws alone.
#![tactic(auto)]

mod laws;

pub use laws::{
    answers_are_told, asks_are_sent, binds_meet, calls_meet, replies_tell_last, requests_arrive,
    sent_asks,
};
