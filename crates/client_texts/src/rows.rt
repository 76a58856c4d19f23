//! Rows of values in brackets.
ghost use Rattle.std.specs.Prelude.{◌≡◌, ◌++◌, map, OnOk, IfOk};
ghost use Rattle.ndr_value.specs.Forms.{types_of};
ghost use Rattle.ndr_value.specs.Values.{vals, msg};
ghost use Rattle.ndr_table.specs.Tables.{param_form};
ghost use Rattle.value_text.specs.Texts.{list_text, more_text};
ghost use Rattle.client_texts.specs.Texts.{row_text, Writes, IsRow, IsRequestText, inwards};
ghost use Rattle.client_texts.specs.Found.{ReadsText, ReadsFront};

use crate::handles::Handles;
use crate::heaps::read_heap;
use crate::items::read_item;
use crate::names::{behind, put_named, with_places};
use base_words::put;
use ndr_table::Param;
use ndr_value::{Message, Shapes, Value, Values};
use rpc_base::NoMemory;
use std::alloc::Global;
use value_text::print_value;

/// Adds values with a comma and a space between each two.
#[tactic(auto, unfolding(value_text::specs::Texts::value_text))]
fn put_list(alloc: Global, values: &[Value], into: &mut Vec<u8>) -> Result<(), NoMemory>
    ensures { OnOk result (into.new.items ≡ into.old.items ++ list_text (vals values.now)) }
{
    let Some((first, others)) = values.split_first() else {
        return Ok(());
    };
    print_value(alloc, first, into)?;
    put_more(alloc, others, into)
}

/// Adds those after the first.
#[tactic(auto, unfolding(value_text::specs::Texts::value_text))]
fn put_more(alloc: Global, values: &[Value], into: &mut Vec<u8>) -> Result<(), NoMemory>
    ensures { OnOk result (into.new.items ≡ into.old.items ++ more_text (vals values.now)) }
{
    let mut left = values;
    while let Some((first, others)) = left.split_first() {
        put(b", ", into)?;
        print_value(alloc, first, into)?;
        left = others;
    }
    Ok(())
}

/// Adds values in brackets, with the places of handles.
#[tactic(auto, unfolding(crate::specs::Texts::row_text))]
fn put_plain(alloc: Global, values: &[Value], into: &mut Vec<u8>) -> Result<(), NoMemory>
    ensures { OnOk result (into.new.items ≡ into.old.items ++ row_text (vals values.now)) }
{
    put(b"(", into)?;
    put_list(alloc, values, into)?;
    put(b")", into)
}

/// Adds the text of a message's values, in which handles have their names among those that came. False where they have no such
/// text: a handle of the message has no place among its wires, or no name; what is added then means nothing.
///
/// # Errors
///
/// `NoMemory` where there is no memory for the text; what is added then means nothing.
pub fn put_row(
    alloc: Global,
    known: &Handles,
    message: &Message,
    into: &mut Vec<u8>,
) -> Result<bool, NoMemory>
    ensures { IfOk result (λ done. Writes done known.now (msg message.now) into.old.items into.new.items) }
{
    let mut plain = Vec::new(alloc);
    put_plain(alloc, &message.values, &mut plain)?;
    put_named(alloc, known, message.wires.as_slice(), &plain, into)
}

/// Values of the shapes of the parameters that go in, in brackets, with a comma and a space between each two, and what stands after
/// them.
fn read_values<'a>(
    alloc: Global,
    types: &Shapes,
    params: &[Param],
    text: &'a [u8],
) -> Result<Option<(Values, &'a [u8])>, NoMemory>
    ensures { IfOk result (λ found. ReadsFront found
        (λ vs rest. IsRow (types_of types.now.items) (inwards (map param_form params.now)) vs text.now rest) (λ x. vals x.0.items) (λ x. x.1.now)) }
{
    let Some(mut rest) = behind(b'(', text) else {
        return Ok(None);
    };
    let mut values = Vec::new(alloc);
    let mut left = params;
    while let Some((param, others)) = left.split_first() {
        if param.inward {
            let first = values.is_empty();
            let Some((value, after)) = read_item(alloc, types, &param.shape, first, rest)? else {
                return Ok(None);
            };
            values.push(value)?;
            rest = after;
        }
        left = others;
    }
    match behind(b')', rest) {
        Some(after) => Ok(Some((values, after))),
        None => Ok(None),
    }
}

/// The message of a request that a text has: one value for each parameter that goes in, in order, in brackets, and after them
/// ` heap ` and the items of its heap in square brackets, where it has any. Each item is of the shape that the first full pointer to
/// it points to, of those that stand before it. Handles stand by their names among those that came, and are the message's in the
/// order in which they stand. `None` where the text is that of no such message.
///
/// # Errors
///
/// `NoMemory` where there is no memory for the message.
pub fn read_row(
    alloc: Global,
    types: &Shapes,
    params: &[Param],
    known: &Handles,
    text: &[u8],
) -> Result<Option<Message>, NoMemory>
    ensures { IfOk result (λ found. ReadsText found
        (λ m. IsRequestText (types_of types.now.items) (inwards (map param_form params.now)) known.now m text.now) msg) }
{
    let Some((plain, wires)) = with_places(alloc, known, text)? else {
        return Ok(None);
    };
    let Some((values, rest)) = read_values(alloc, types, params, &plain)? else {
        return Ok(None);
    };
    let Some(heap) = read_heap(alloc, types, params, &values, rest)? else {
        return Ok(None);
    };
    Ok(Some(Message {
        values,
        heap,
        wires,
    }))
}
