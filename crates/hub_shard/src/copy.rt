//! A group's journal is copied.
use crate::act::Act;
use crate::shard::Shard;
use group_core::Journal;
use rpc_base::NoMemory;

/// A group's journal is copied, as it stands in the hub.
#[derive(Clone, Copy)]
pub struct Copied {
    pub id: u32,
}

impl Act for Copied {
    ghost use Rattle.hub_shard.specs.Copies.{asks_copy, gives_copy};

    type Answer = Result<Option<Journal>, NoMemory>;

    ghost asks = { asks_copy };

    ghost gives = { gives_copy };

    fn act(self, shard: &mut Shard) -> (Result<Option<Journal>, NoMemory>, u64) {
        match shard.index(self.id) {
            None => (Ok(None), 0),
            Some(at) => match shard.copy(at) {
                Ok(journal) => (Ok(Some(journal)), 0),
                Err(refused) => (Err(refused), 0),
            },
        }
    }
}
