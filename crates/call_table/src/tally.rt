//! What is counted over all calls, so that no call has to look at each of them.
ghost use Rattle.std.specs.Prelude.{[]};
ghost use Rattle.call_table.specs.Kept.{AllFew, Rises};
ghost use Rattle.call_table.specs.Tally as spec;

use crate::row::Row;
use crate::row_table::RowTable;

/// How many handles the calls may issue, and how many calls run.
#[derive(Drop)]
pub struct Tally {
    pub openings: usize,
    pub running: usize,
}

impl Tally {
    /// Of no calls.
    pub fn new() -> Tally
        ensures { spec.IsTally [] result }
    {
        Tally {
            openings: 0,
            running: 0,
        }
    }

    /// Of these calls.
    #[tactic(auto, using(handle_model::proofs::Rest::resting))]
    pub fn of(rows: &RowTable) -> Tally
        requires rise { Rises 0 rows.now.items }
        requires few { AllFew rows.now.items }
        ensures { spec.IsTally rows.now.items result }
    {
        let mut tally = Tally::new();
        for at in 0..rows.len() {
            tally.enter(rows.row(at));
        }
        tally
    }

    /// Of a call more.
    pub fn enter(&mut self, row: &Row)
        requires { spec.HasRoom self.old }
        ensures { spec.Enters self.old row.now self.new }
    {
        self.openings += row.slots.openings();
        self.running += usize::from(row.runs);
    }

    /// Of a call less.
    pub fn leave(&mut self, row: &Row)
        requires { spec.Holds self.old row.now }
        ensures { spec.Leaves self.old row.now self.new }
    {
        self.openings -= row.slots.openings();
        self.running -= usize::from(row.runs);
    }
}
