//! What a service is that is served by an interface's text: what it keeps, what its operations answer, and what they leave
//! (C706, "Remote Procedure Call Model", managers).
#![tactic(auto)]

mod steps;

pub use steps::Steps;
