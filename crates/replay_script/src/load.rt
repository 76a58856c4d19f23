//! A load, step by step.
ghost use Rattle.std.specs.Prelude.{◌≡◌, ◌<◌, ◌+◌, if◌then◌else◌, ◌∷◌, [], ℕ, None, List};
ghost use Rattle.replay_script.specs.Drawing as drawing;
ghost use Rattle.replay_script.specs.Rounds.{Round, step_after};
ghost use Rattle.replay_script.specs.Rounds as spec;
ghost use Rattle.replay_script.specs.Knowing.{Knows};

use crate::slot::Slot;
use crate::{Deed, Step};
use rpc_base::Octets;

/// How many steps a load has at most.
pub const MOST_STEPS: u32 = 100_000;

/// A load, behind the steps that were made so far. It takes no memory.
#[derive(Debug, Drop)]
pub struct Load {
    pub(crate) number: u64,
    pub(crate) steps: u32,
    pub(crate) opened: u32,
    pub(crate) slots: [Slot; 8],
}

/// The number of the next step.
fn next_number(number: u64) -> u64
    ensures { result ≡ drawing.next_number number }
{
    let next = u128::from(number) * 6_364_136_223_846_793_005 + 1_442_695_040_888_963_407;
    (next % (1 << 64)) as u64
}

/// How many connections were opened, where so many were before.
fn opened_by(deed: Deed, before: u32) -> u32
    ensures { before < 100000 → result ≡ (if spec.opens deed then before + 1 else before) }
{
    match deed {
        Deed::Open { .. } => before.saturating_add(1),
        _ => before,
    }
}

impl Load {
    /// The load of a number, before its first step.
    pub fn new(number: u64) -> Load
        ensures { Knows number [] result }
    {
        Load {
            number,
            steps: 0,
            opened: 0,
            slots: [Slot::empty(); 8],
        }
    }

    /// How many steps were made.
    pub fn steps(&self) -> u32
        ensures { result ≡ self.now.steps }
    {
        self.steps
    }

    /// What happens in the next step.
    #[tactic(auto, using(crate::proofs::Behind::step_is))]
    pub fn next(&self) -> Step
        requires { self.now.steps < 100000 }
        ensures slot { result.slot < 8 }
        ensures step { (number : ℕ) (past : List Round) → Knows number past self.now → result ≡ step_after number past }
    {
        let drawn = next_number(self.number) / (1 << 33);
        let slot = (drawn % 8) as usize;
        let deed = match self.slots[slot].conn {
            None => self.opening(drawn),
            Some(name) => self.deed_on(slot, drawn, name),
        };
        Step { slot, deed }
    }

    #[tactic(auto, using(crate::proofs::Behind::opened_low))]
    fn opening(&self, drawn: u64) -> Deed
        requires { self.now.steps < 100000 }
        ensures { (number : ℕ) (past : List Round) → Knows number past self.now → result ≡ spec.deed_at past (drawing.slot_of drawn) drawn None }
    {
        Deed::Open {
            name: self.opened.saturating_add(1),
            group: self.group_asked(drawn),
        }
    }

    fn group_asked(&self, drawn: u64) -> u32
        ensures { (number : ℕ) (past : List Round) → Knows number past self.now → result ≡ spec.group_asked past drawn }
    {
        if drawn / 64 % 4 == 0 {
            return 0;
        }
        self.slots[0].group.unwrap_or(0)
    }

    #[tactic(auto, using(crate::proofs::Behind::call_low))]
    fn deed_on(&self, slot: usize, drawn: u64, name: u32) -> Deed
        requires slot { slot < 8 }
        requires more { self.now.steps < 100000 }
        ensures { (number : ℕ) (past : List Round) → Knows number past self.now → result ≡ spec.deed_on past slot drawn name }
    {
        let call = self.slots[slot].call;
        let next = call.saturating_add(1);
        let choice = drawn / 8 % 8;
        if choice == 0 {
            Deed::Lose { name }
        } else if choice <= 2 {
            Deed::Run { name }
        } else if choice <= 4 {
            Deed::Finish { name }
        } else if choice == 5 {
            Deed::Cancel { name, call }
        } else if choice == 6 {
            Deed::Issue {
                name,
                call: next,
                number: self.steps + 1,
            }
        } else {
            Deed::Close {
                name,
                call: next,
                handle: self.slots[(drawn / 64 % 8) as usize].handle,
            }
        }
    }

    /// The step was played, and these PDUs were answered on its connection, in order.
    pub fn played(&mut self, step: Step, answers: &[Octets])
        requires slot { step.slot < 8 }
        requires more { self.old.steps < 100000 }
        ensures { (number : ℕ) (past : List Round) → Knows number past self.old → Knows number (record { step = step; answers = answers.now } ∷ past) self.new }
    {
        let slot = self.slots[step.slot].after(step, answers);
        self.number = next_number(self.number);
        self.steps += 1;
        self.opened = opened_by(step.deed, self.opened);
        self.slots[step.slot] = slot;
    }
}
