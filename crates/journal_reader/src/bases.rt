//! Reads the lines that begin a journal, behind their first words: whose it is, and what it goes on
//! from.
ghost use Rattle.std.specs.Prelude.{◌≡◌, ◌∷◌, [], IfOk};
ghost use Rattle.base_words.specs.Reads.{Reads};
ghost use Rattle.journal_reader.specs.Fits.{FitsHome, FitsBase, FitsCalled, FitsCall};
ghost use Rattle.journal_text.specs.Texts as texts;
ghost use Rattle.journal_reader.specs.Parts as parts;

use crate::asked::asked_of;
use crate::cut::{cut_seven, cut_six, cut_three, cut_two};
use crate::list::{read_conns, read_dues};
use crate::part::{Stage, read_count, read_stage};
use base_words::{read_hex_u64, read_u32};
use handle_model::{Asked, Base, BaseCall, Home};
use rpc_base::{Items, NoMemory};
use std::alloc::Global;

fn home_of(group: &[u8], word: &[u8], boot: &[u8]) -> Option<Home>
    ensures { Reads FitsHome parts.home_parts (group.now ∷ word.now ∷ boot.now ∷ []) result }
{
    if word != b"boot".as_slice() {
        return None;
    }
    let group = read_u32(group)?;
    let boot = read_hex_u64(boot)?;
    Some(Home { boot, group })
}

/// The id of the group and the boot word of its server.
fn read_home(text: &[u8]) -> Option<Home>
    ensures { Reads FitsHome parts.home_text text.now result }
{
    let (group, word, boot) = cut_three(b' ', text)?;
    home_of(group, word, boot)
}

fn base_of(
    alloc: Global,
    count: &[u8],
    joins: &[u8],
    accepts: &[u8],
    opens: &[u8],
    conns: &[u8],
    handles: &[u8],
) -> Result<Option<Base>, NoMemory>
    ensures { IfOk result (Reads FitsBase parts.base_parts
        (count.now ∷ joins.now ∷ accepts.now ∷ opens.now ∷ conns.now ∷ handles.now ∷ [])) }
{
    let Some(count) = read_count(count) else {
        return Ok(None);
    };
    let Some(joins) = read_u32(joins) else {
        return Ok(None);
    };
    let Some(accepts) = read_u32(accepts) else {
        return Ok(None);
    };
    let Some(opens) = read_u32(opens) else {
        return Ok(None);
    };
    let Some(conns) = read_conns(alloc, conns)? else {
        return Ok(None);
    };
    let Some(handles) = read_dues(alloc, handles)? else {
        return Ok(None);
    };
    Ok(Some(Base {
        count,
        joins,
        accepts,
        opens,
        conns,
        calls: Items::new(alloc),
        handles,
    }))
}

/// A base without its calls.
fn read_base(alloc: Global, text: &[u8]) -> Result<Option<Base>, NoMemory>
    ensures { IfOk result (Reads FitsBase parts.base_rest text.now) }
{
    let Some((count, joins, accepts, opens, conns, handles)) = cut_six(b' ', text) else {
        return Ok(None);
    };
    base_of(alloc, count, joins, accepts, opens, conns, handles)
}

fn called_of(
    alloc: Global,
    conn: &[u8],
    operation: &[u8],
    order: &[u8],
    reply: &[u8],
    slots: &[u8],
    stub: &[u8],
    stage: &[u8],
) -> Result<Option<(Asked, Stage)>, NoMemory>
    ensures { IfOk result (Reads FitsCalled parts.called_parts
        (conn.now ∷ operation.now ∷ order.now ∷ reply.now ∷ slots.now ∷ stub.now ∷ stage.now ∷ [])) }
{
    let Some(stage) = read_stage(stage) else {
        return Ok(None);
    };
    let Some(asked) = asked_of(alloc, conn, operation, order, reply, slots, stub)? else {
        return Ok(None);
    };
    Ok(Some((asked, stage)))
}

/// What a call of a base asked, and how far it has come.
fn read_called(alloc: Global, text: &[u8]) -> Result<Option<(Asked, Stage)>, NoMemory>
    ensures { IfOk result (Reads FitsCalled parts.called_text text.now) }
{
    let Some((conn, operation, order, reply, slots, stub, stage)) = cut_seven(b' ', text) else {
        return Ok(None);
    };
    called_of(alloc, conn, operation, order, reply, slots, stub, stage)
}

fn call_of(alloc: Global, call: &[u8], called: &[u8]) -> Result<Option<BaseCall>, NoMemory>
    ensures { IfOk result (Reads FitsCall parts.call_parts (call.now ∷ called.now ∷ [])) }
{
    let Some(call) = read_u32(call) else {
        return Ok(None);
    };
    let Some((asked, (taken, cancelled, orphaned))) = read_called(alloc, called)? else {
        return Ok(None);
    };
    Ok(Some(BaseCall {
        call,
        asked,
        taken,
        cancelled,
        orphaned,
    }))
}

/// A call of a base.
fn read_call(alloc: Global, text: &[u8]) -> Result<Option<BaseCall>, NoMemory>
    ensures { IfOk result (Reads FitsCall parts.call_text text.now) }
{
    let Some((call, called)) = cut_two(b' ', text) else {
        return Ok(None);
    };
    call_of(alloc, call, called)
}

fn group_of(name: &[u8], rest: &[u8]) -> Option<Home>
    ensures { Reads FitsHome parts.group_parts (name.now ∷ rest.now ∷ []) result }
{
    if name != b"group".as_slice() {
        return None;
    }
    read_home(rest)
}

/// The line that heads a journal, without its line feed.
pub(crate) fn read_group_line(body: &[u8]) -> Option<Home>
    ensures { Reads FitsHome parts.group_line body.now result }
{
    let (name, rest) = cut_two(b' ', body)?;
    group_of(name, rest)
}

fn named_base(alloc: Global, name: &[u8], rest: &[u8]) -> Result<Option<Base>, NoMemory>
    ensures { IfOk result (Reads FitsBase parts.headed_base (name.now ∷ rest.now ∷ [])) }
{
    if name != b"base".as_slice() {
        return Ok(None);
    }
    read_base(alloc, rest)
}

/// The line of a base.
pub(crate) fn read_base_line(alloc: Global, body: &[u8]) -> Result<Option<Base>, NoMemory>
    ensures { IfOk result (Reads FitsBase texts.base_line body.now) }
{
    let Some((name, rest)) = cut_two(b' ', body) else {
        return Ok(None);
    };
    named_base(alloc, name, rest)
}

fn named_call(alloc: Global, name: &[u8], rest: &[u8]) -> Result<Option<BaseCall>, NoMemory>
    ensures { IfOk result (Reads FitsCall parts.headed_call (name.now ∷ rest.now ∷ [])) }
{
    if name != b"base-call".as_slice() {
        return Ok(None);
    }
    read_call(alloc, rest)
}

/// The line of a call of a base.
pub(crate) fn read_call_line(alloc: Global, body: &[u8]) -> Result<Option<BaseCall>, NoMemory>
    ensures { IfOk result (Reads FitsCall texts.call_line body.now) }
{
    let Some((name, rest)) = cut_two(b' ', body) else {
        return Ok(None);
    };
    named_call(alloc, name, rest)
}
