//! The desk behind the interface.
ghost use Rattle.std.specs.Prelude.{◌≡◌, [], None, IfOk};
ghost use Rattle.ndr_value.specs.Values.{Msg, msg};
ghost use Rattle.manager_api.specs.Answers.{Gives, ans};
ghost use Rattle.manager_api.specs.Arguments.{bytes_at, uint_at as uint_at_spec};
ghost use Rattle.manager_api.specs.Calls.{Owes};
ghost use Rattle.manager_api.specs.Messages.{IsRequest};
ghost use Rattle.store_manager.specs.Table.{store_table};
ghost use Rattle.store_manager.specs.Files.{number_named};
ghost use Rattle.store_manager.specs.Steps.{open_step, open_named, append_step, read_step, close_step, view_step, size_step};

use crate::File;
use crate::answers::{octets_read, sized, viewed};
use crate::files::{
    MOST_FILES, MOST_OCTETS, add_file, append_at, cookie_of, file_of, is_name, number_of, piece,
    position_of,
};
use handle_model::{CookieRow, DueItem, Rundown};
use manager_api::{
    Answer, Desk, FixedDesk, Kept, Probe, bytes_len, handle_and_status, or_no_memory, text_at,
    uint_at,
};
use ndr_value::Message;
use rpc_base::{Names, NoMemory, named};
use std::alloc::Global;
use std::collections::BTreeMap;
use std::marker::Model;

/// The desk of the store. Contracts see it as the files, in the order in which they were opened
/// first, and the number of its handles, of those issued and neither closed nor run down.
#[derive(Drop)]
pub struct StoreDesk {
    alloc: Global,
    files: Vec<File>,
    // the number of the file of each name
    names: Names<u32>,
    handles: usize,
}

impl Model for StoreDesk {
    ghost use Rattle.store_manager.specs.Files.{Store};
    ghost use Rattle.store_manager.specs.Wholes.{IsWhole};

    ghost Value = { Store };

    ghost view = { λ desk. record { files = desk.files.items; handles = desk.handles } };

    ghost invariant = { λ desk. IsWhole desk.files.items desk.names };
}

impl StoreDesk {
    /// One without files and handles.
    pub fn new(alloc: Global) -> StoreDesk
        ensures files { result.files ≡ [] }
        ensures handles { result.handles ≡ 0 }
    {
        StoreDesk {
            alloc,
            files: Vec::new(alloc),
            names: BTreeMap::new(alloc),
            handles: 0,
        }
    }

    /// How many handles were issued and are neither closed nor run down.
    pub fn open_handles(&self) -> usize
        ensures { result ≡ self.now.handles }
    {
        self.handles
    }

    // store_open of a name that no file has
    fn open_new(&mut self, name: &[u8]) -> Result<Answer, NoMemory>
        requires { number_named name.now self.old.files ≡ None }
        ensures { Gives result (open_named self.old name.now None) self.old self.new }
    {
        let count = self.files.len();
        if count >= MOST_FILES {
            return Ok(handle_and_status(self.alloc, Kept::Null, 2)?);
        }
        let number = count as u32 + 1;
        let answer = handle_and_status(self.alloc, Kept::Cookie(cookie_of(number, 0)), 0)?;
        add_file(self.alloc, name, number, &mut self.files, &mut self.names)?;
        self.handles = self.handles.saturating_add(1);
        Ok(answer)
    }

    // store_open
    fn open(&mut self, name: &[u8]) -> Result<Answer, NoMemory>
        ensures { Gives result (open_step self.old name.now) self.old self.new }
    {
        if !is_name(name) {
            return Ok(handle_and_status(self.alloc, Kept::Null, 1)?);
        }
        match named(&self.names, name) {
            Some(number) => {
                let cookie = cookie_of(*number, 0);
                let answer = handle_and_status(self.alloc, Kept::Cookie(cookie), 0)?;
                self.handles = self.handles.saturating_add(1);
                Ok(answer)
            }
            None => self.open_new(name),
        }
    }

    // store_append
    fn append(&mut self, cookie: Option<u64>, message: &Message) -> Result<Answer, NoMemory>
        ensures { Gives result (append_step self.old cookie (bytes_at (msg message.now) 2)) self.old self.new }
    {
        let Some(cookie) = cookie else {
            return Ok(handle_and_status(self.alloc, Kept::Null, 4)?);
        };
        let Some(file) = file_of(&self.files, cookie) else {
            return Ok(handle_and_status(self.alloc, Kept::Cookie(cookie), 4)?);
        };
        let count = file.octets.len();
        let more = bytes_len(message, 2);
        if more > MOST_OCTETS - count {
            return Ok(handle_and_status(self.alloc, Kept::Cookie(cookie), 3)?);
        }
        let number = number_of(cookie);
        let moved = cookie_of(number, (count + more) as u32);
        let answer = handle_and_status(self.alloc, Kept::Cookie(moved), 0)?;
        append_at(self.alloc, message, &mut self.files, number as usize - 1)?;
        Ok(answer)
    }

    // store_read
    fn read(&self, cookie: Option<u64>, message: &Message) -> Result<Answer, NoMemory>
        requires request { IsRequest store_table 2 (msg message.now) }
        ensures gives { Gives result (read_step self.now cookie (uint_at_spec (msg message.now) 1)) self.now self.now }
        ensures owes { IfOk result (λ a. Owes store_table 2 (msg message.now) (ans a)) }
    {
        let Some(cookie) = cookie else {
            let null = octets_read(self.alloc, Kept::Null, &[], 4)?;
            return Ok(null);
        };
        let Some(file) = file_of(&self.files, cookie) else {
            let absent = octets_read(self.alloc, Kept::Cookie(cookie), &[], 4)?;
            return Ok(absent);
        };
        let octets = file.octets.as_slice();
        let position = (position_of(cookie) as usize).min(octets.len());
        let piece = piece(octets, position, uint_at(message, 1) as usize);
        let moved = cookie_of(number_of(cookie), (position + piece.len()) as u32);
        let answer = octets_read(self.alloc, Kept::Cookie(moved), piece, 0)?;
        Ok(answer)
    }

    // store_close and store_unview
    fn close(&mut self, cookie: Option<u64>) -> Result<Answer, NoMemory>
        ensures { Gives result (close_step self.old cookie) self.old self.new }
    {
        let Some(cookie) = cookie else {
            return Ok(handle_and_status(self.alloc, Kept::Null, 4)?);
        };
        let status = match file_of(&self.files, cookie) {
            None => 4,
            Some(_) => 0,
        };
        let answer = handle_and_status(self.alloc, Kept::Null, status)?;
        self.handles = self.handles.saturating_sub(1);
        Ok(answer)
    }

    // store_view
    fn view(&mut self, cookie: Option<u64>) -> Result<Answer, NoMemory>
        ensures { Gives result (view_step self.old cookie) self.old self.new }
    {
        let Some(cookie) = cookie else {
            return Ok(viewed(self.alloc, Kept::Null, 4)?);
        };
        if file_of(&self.files, cookie).is_none() {
            return Ok(viewed(self.alloc, Kept::Null, 4)?);
        }
        let view = cookie_of(number_of(cookie), 0);
        let answer = viewed(self.alloc, Kept::Cookie(view), 0)?;
        self.handles = self.handles.saturating_add(1);
        Ok(answer)
    }

    // store_size
    fn size(&self, cookie: Option<u64>) -> Result<Answer, NoMemory>
        ensures gives { Gives result (size_step self.now cookie) self.now self.now }
        ensures owes { IfOk result (λ a. (asked : Msg) → Owes store_table 5 asked (ans a)) }
    {
        let Some(cookie) = cookie else {
            let null = sized(self.alloc, 0, 4)?;
            return Ok(null);
        };
        let Some(file) = file_of(&self.files, cookie) else {
            let absent = sized(self.alloc, 0, 4)?;
            return Ok(absent);
        };
        let answer = sized(self.alloc, file.octets.len() as u64, 0)?;
        Ok(answer)
    }
}

impl Rundown for StoreDesk {
    ghost use Rattle.std.specs.Prelude.{◌≡◌};
    ghost use Rattle.store_manager.specs.Steps.{without_handle};

    ghost runs_down = { λ before item after. after ≡ without_handle before };

    fn rundown(&mut self, _item: DueItem) {
        self.handles = self.handles.saturating_sub(1);
    }
}

impl Desk for StoreDesk {
    ghost use Rattle.manager_api.specs.Answers.{Does};
    ghost use Rattle.store_manager.specs.Table.{store_table};
    ghost use Rattle.store_manager.specs.Steps.{store_step};

    ghost table = { λ desk. store_table };

    ghost may = { λ before call told answer after. Does (store_step before call) before answer after };

    fn call<P: Probe>(
        &mut self,
        _iface: u16,
        op: u16,
        message: Message,
        cookies: CookieRow,
        _probe: &mut P,
    ) -> Answer {
        let cookie = cookies[0];
        match op {
            0 => or_no_memory(self.open(text_at(&message, 0))),
            1 => or_no_memory(self.append(cookie, &message)),
            2 => or_no_memory(self.read(cookie, &message)),
            3 => or_no_memory(self.close(cookie)),
            4 => or_no_memory(self.view(cookie)),
            5 => or_no_memory(self.size(cookie)),
            6 => or_no_memory(self.close(cookie)),
            _ => unreachable!(),
        }
    }
}

impl FixedDesk for StoreDesk {
    ghost use Rattle.std.specs.Prelude.{refl};
    ghost use Rattle.store_manager.specs.Table.{store_table};

    ghost fixed = { store_table };

    ghost serves = { λ desk. refl };
}
