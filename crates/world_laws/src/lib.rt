//! A caller, a server and the connections between them, over which octets are on their way and may be lost: what each
//! move of that world does is defined in `specs/`, by what each layer says of it. Laws of every world: whatever the
//! moves are, what the caller is told of its calls is true. Laws alone.
#![tactic(auto)]

mod laws;

pub use laws::{
    calls_are_rows, cancels_lead, fates_are_told, fates_are_true, handles_are_kept, losses_lead,
    only_where_it_may, opens_first, opens_lead, restarts_lead, starts_are_rows, starts_lead,
    takes_lead, takes_none_first,
};
