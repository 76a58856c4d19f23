//! Presentation contexts: what a server answers to the offers of a bind or an alter_context, and
//! which contexts are then accepted.
#![tactic(auto)]

mod contexts;
mod laws;
mod offers;
mod verdict;

pub use contexts::Contexts;
pub use laws::{
    accepts_within_limit, keeps_what_it_accepts, one_after_the_other, serves_what_it_accepts,
};
pub use offers::ndr;
pub use verdict::{Accepted, Reason, Verdict};
