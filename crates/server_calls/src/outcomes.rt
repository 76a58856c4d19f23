//! What becomes of the handles of a call.
ghost use Rattle.std.specs.Prelude.{◌≡◌, ◌+◌, ◌≤◌, ◌++◌, vec_len, vec_capacity, length};
ghost use Rattle.manager_api.specs.Answers.{ans};
ghost use Rattle.conn_histories.specs.Ends as spec;
ghost use Rattle.server_calls.specs.Suited.{IsFor};

use handle_model::{Outcome, Outcomes, Slot};
use manager_api::{Answer, Kept};
use rpc_base::NoMemory;
use std::alloc::Global;

/// Room for the results of one call. It is made before the call is accepted, so that no end can be
/// refused for want of memory.
#[derive(Drop)]
pub struct Room {
    results: Vec<Outcome>,
    ghost empty: { vec_len results ≡ 0 },
    ghost wide: { 4 ≤ vec_capacity results },
}

fn outcome_of(slot: &Slot, kept: &Kept) -> Outcome
    ensures { result ≡ spec.outcome_of slot.now kept.now }
{
    match slot {
        Slot::Changes { .. } => match kept {
            Kept::Cookie(cookie) => Outcome::Keep(*cookie),
            Kept::Stays | Kept::Null => Outcome::Close,
        },
        Slot::Opens { serial, .. } => match kept {
            Kept::Cookie(cookie) => Outcome::Issue {
                serial: *serial,
                cookie: *cookie,
            },
            Kept::Stays | Kept::Null => Outcome::Nothing,
        },
        Slot::Shares { .. } | Slot::Holds { .. } => Outcome::Nothing,
    }
}

// After a fault.
fn unchanged(slot: &Slot, cookie: Option<u64>) -> Outcome
    ensures { result ≡ spec.unchanged slot.now cookie }
{
    match slot {
        Slot::Changes { .. } => Outcome::Keep(cookie.unwrap_or(0)),
        _ => Outcome::Nothing,
    }
}

fn add_outcomes(slots: &[Slot], kepts: &[Kept], into: &mut Vec<Outcome>)
    requires { vec_len into.old + length slots.now ≤ vec_capacity into.old }
    ensures { into.new.items ≡ into.old.items ++ spec.outcomes_of slots.now kepts.now }
{
    match (slots.split_first(), kepts.split_first()) {
        (Some((slot, slots)), Some((kept, kepts))) => {
            into.push_reserved(outcome_of(slot, kept));
            add_outcomes(slots, kepts, into);
        }
        _ => {}
    }
}

fn add_unchanged(slots: &[Slot], cookies: &[Option<u64>], into: &mut Vec<Outcome>)
    requires { vec_len into.old + length slots.now ≤ vec_capacity into.old }
    ensures { into.new.items ≡ into.old.items ++ spec.all_unchanged slots.now cookies.now }
{
    match (slots.split_first(), cookies.split_first()) {
        (Some((slot, slots)), Some((cookie, cookies))) => {
            into.push_reserved(unchanged(slot, *cookie));
            add_unchanged(slots, cookies, into);
        }
        _ => {}
    }
}

impl Room {
    /// Room for the results of a call.
    ///
    /// # Errors
    ///
    /// `NoMemory` where there is no memory for it.
    pub fn new(alloc: Global) -> Result<Room, NoMemory> {
        Ok(Room {
            results: Vec::with_capacity(alloc, 4)?,
        })
    }

    /// What becomes of the handles at a call's slots, by its manager's answer and by the cookies that it
    /// was given. It takes no memory.
    pub fn results(self, slots: &[Slot], cookies: &[Option<u64>], answer: &Answer) -> Outcomes
        requires { length slots.now ≤ 4 }
        ensures { result ≡ spec.results_of slots.now cookies.now (ans answer.now) }
    {
        let mut results = self.results;
        match answer {
            Answer::Out(_, kepts) => add_outcomes(slots, kepts.as_slice(), &mut results),
            Answer::Fault(_) => add_unchanged(slots, cookies, &mut results),
        }
        Outcomes::from_vec(results)
    }
}
