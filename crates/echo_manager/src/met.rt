//! The items of the heap that were met.
ghost use Rattle.std.specs.Prelude.{◌≡◌, [], length, is_none, IfOk, OnOk, OnErr};
ghost use Rattle.echo_manager.specs.Met as spec;
ghost use Rattle.echo_manager.specs.Numbered.{new_number};

use rpc_base::NoMemory;
use std::alloc::Global;
use std::marker::Model;

/// The numbers of the items that were met, in the order in which they were. Contracts see it as these.
#[derive(Drop)]
pub struct Met {
    order: Vec<u32>,
    // for each item of the heap its place in that order
    places: Vec<Option<u32>>,
}

impl Model for Met {
    ghost use Rattle.std.specs.Prelude.{List, ℕ};
    ghost use Rattle.echo_manager.specs.Views.{IsPlaced};

    ghost Value = { List ℕ };

    ghost view = { λ m. m.order.items };

    ghost invariant = { λ m. IsPlaced m.order.items m.places.items };
}

impl Met {
    /// None yet, in a heap of so many items.
    ///
    /// # Errors
    ///
    /// `NoMemory` where there is no memory for a mark of each item.
    #[tactic(auto, using(crate::proofs::Placed::placed))]
    pub fn new(alloc: Global, count: usize) -> Result<Met, NoMemory>
        ensures { IfOk result (λ m. m ≡ []) }
    {
        let places = vec![in alloc; None; count]?;
        Ok(Met {
            order: Vec::new(alloc),
            places,
        })
    }

    /// The numbers, in their order.
    pub fn order(&self) -> &[u32]
        ensures { result.now ≡ self.now }
    {
        self.order.as_slice()
    }

    // Where the item of that number was met.
    fn place(&self, number: u32) -> Result<Option<u32>, NoMemory>
        ensures { IfOk result (λ p. p ≡ spec.place_in number self.now) }
    {
        match self.places.get(number as usize) {
            None => Err(NoMemory),
            Some(place) => Ok(*place),
        }
    }

    /// Meets the item of that number, and tells whether it wasn't met before.
    ///
    /// # Errors
    ///
    /// `NoMemory` where there is no memory to note it.
    #[tactic(auto, using(crate::proofs::Placed::placed))]
    pub fn meet(&mut self, number: u32) -> Result<bool, NoMemory>
        ensures met { OnOk result (self.new ≡ spec.with_met self.old number) }
        ensures new { IfOk result (λ b. b ≡ is_none (spec.place_in number self.old)) }
    {
        if number as usize >= self.places.len() {
            return Err(NoMemory);
        }
        match self.place(number)? {
            Some(_) => Ok(false),
            None => {
                let Ok(place) = u32::try_from(self.order.len()) else {
                    return Err(NoMemory);
                };
                self.order.push(number)?;
                self.places[number as usize] = Some(place);
                Ok(true)
            }
        }
    }

    /// The item's new number: its place, or the number of no item.
    ///
    /// # Errors
    ///
    /// `NoMemory` where its place or the count of items met doesn't fit in 32 bits, or the number is that of no item of the heap.
    pub fn number(&self, number: u32) -> Result<u32, NoMemory>
        ensures { IfOk result (λ n. n ≡ new_number self.now number) }
    {
        match self.places.get(number as usize) {
            Some(Some(place)) => Ok(*place),
            Some(None) => match u32::try_from(self.order.len()) {
                Ok(count) => Ok(count),
                Err(_) => Err(NoMemory),
            },
            None => Err(NoMemory),
        }
    }
}
