//! The store's answers.
ghost use Rattle.std.specs.Prelude.{◌≡◌, ◌<◌, ◌^◌, ◌∷◌, [], IfOk};
ghost use Rattle.rpc_base.specs.Fields.{IsOctets};
ghost use Rattle.manager_api.specs.declared.answer.Kept.TheVariants.{Stays};
ghost use Rattle.manager_api.specs.Answers.{AOut, ans};
ghost use Rattle.manager_api.specs.Responses.{handle_and_status as handle_and_status_spec};
ghost use Rattle.store_manager.specs.Steps.{read_response, size_response};

use manager_api::{Answer, Kept, Kepts, response};
use ndr_value::Value;
use rpc_base::{NoMemory, Octets};
use std::alloc::Global;

/// A view, and what becomes of it.
///
/// # Errors
///
/// `NoMemory` where there is no memory for the message.
pub fn viewed(alloc: Global, kept: Kept, status: u32) -> Result<Answer, NoMemory>
    ensures { IfOk result (λ a. ans a ≡ AOut (handle_and_status_spec status) (Stays ∷ kept ∷ [])) }
{
    let mut values = Vec::new(alloc);
    values.push(Value::Handle(0))?;
    values.push(Value::Uint(u64::from(status)))?;
    let mut kepts = Kepts::new(alloc);
    kepts.push(Kept::Stays)?;
    kepts.push(kept)?;
    Ok(Answer::Out(response(alloc, values, 1)?, kepts))
}

/// The size of a view's file.
///
/// # Errors
///
/// `NoMemory` where there is no memory for the message.
pub fn sized(alloc: Global, size: u64, status: u32) -> Result<Answer, NoMemory>
    ensures answer { IfOk result (λ a. ans a ≡ AOut (size_response size status) (Stays ∷ [])) }
    ensures fits { size < 2 ^ 64 }
{
    let mut values = Vec::new(alloc);
    values.push(Value::Uint(size))?;
    values.push(Value::Uint(u64::from(status)))?;
    let mut kepts = Kepts::new(alloc);
    kepts.push(Kept::Stays)?;
    Ok(Answer::Out(response(alloc, values, 0)?, kepts))
}

/// Octets of a cursor's file, and what becomes of the cursor.
///
/// # Errors
///
/// `NoMemory` where there is no memory for the message.
pub fn octets_read(alloc: Global, kept: Kept, piece: &[u8], status: u32) -> Result<Answer, NoMemory>
    ensures answer { IfOk result (λ a. ans a ≡ AOut (read_response piece.now status) (kept ∷ [])) }
    ensures octets { IsOctets piece.now }
{
    let octets = Octets::from_vec(Vec::from_slice(alloc, piece)?);
    let mut values = Vec::new(alloc);
    values.push(Value::Handle(0))?;
    values.push(Value::Uint(piece.len() as u64))?;
    values.push(Value::Octets(octets))?;
    values.push(Value::Uint(u64::from(status)))?;
    let mut kepts = Kepts::new(alloc);
    kepts.push(kept)?;
    Ok(Answer::Out(response(alloc, values, 1)?, kepts))
}
