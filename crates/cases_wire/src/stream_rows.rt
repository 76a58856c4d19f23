//! Streams in pieces, and the requests that their fragments join to.

use base_words::{put, put_hex};
use cases_base::{Answers, CasesFault, Names, Told, answered, first_word, octets_of, put_debug};
use pdu_codec::flags::{FIRST_FRAG, LAST_FRAG};
use pdu_codec::{Body, Pdu, PduFault, RequestBody};
use pdu_stream::{Feed, JoinFault, Joined, Joiner, MOST_STUB, cut_stream, piece};
use rpc_base::{Items, NoMemory, Octets, Order};
use std::alloc::Global;

/// `cut OCTETS`: how many PDUs come of a stream, how many octets remain, and the fault. `join OCTETS`: what each PDU does to
/// the request that is joined, when octets come one by one, and the fault behind them, which stays. `hold OCTETS`: how many
/// octets remain behind a first PDU, the fault there, how many remain when all come again, and the first that is held.
/// `piece LENGTH MOST HEAD INDEX`: where a fragment's piece of a stub begins, and its size. `long COUNT`: the size of a request
/// whose first fragment has 8 octets less than the longest stub, and whose second has so many.
#[derive(Clone, Copy)]
struct StreamRows;

impl Answers for StreamRows {
    fn answer(
        &mut self,
        alloc: Global,
        names: &Names,
        given: &str,
        into: &mut Vec<u8>,
    ) -> Result<bool, NoMemory> {
        let (verb, words) = first_word(given);
        match verb {
            "piece" => return put_piece(alloc, words, into),
            "long" => return put_long(alloc, words, into),
            _ => {}
        }
        let Some(octets) = octets_of(alloc, names, words)? else {
            return Ok(false);
        };
        match verb {
            "cut" => put_cuts(alloc, octets.as_slice(), into)?,
            "join" => put_joins(alloc, names, octets.as_slice(), into)?,
            "hold" => put_held(alloc, octets.as_slice(), into)?,
            _ => return Ok(false),
        }
        Ok(true)
    }
}

/// How many PDUs octets have that come in pieces of that size, how many octets remain, and the fault.
fn outcome(
    alloc: Global,
    octets: &[u8],
    size: usize,
) -> Result<(usize, usize, Option<PduFault>), NoMemory> {
    let mut pieces = Items::new(alloc);
    for piece in octets.chunks(size.max(1)) {
        pieces.push(Octets::from_vec(Vec::from_slice(alloc, piece)?))?;
    }
    let cut = cut_stream(alloc, pieces.as_slice())?;
    Ok((cut.pdus.len(), cut.rest.len(), cut.fault))
}

/// The outcome, which is one whether the octets come singly, in sevens or at once.
fn put_cuts(alloc: Global, octets: &[u8], into: &mut Vec<u8>) -> Result<(), NoMemory> {
    let outcome = self::outcome(alloc, octets, 1)?;
    for size in [7, 4096] {
        if self::outcome(alloc, octets, size)? != outcome {
            return put(b"several", into);
        }
    }
    let (pdus, rest, fault) = outcome;
    let text = match fault {
        None => format!(in alloc; "{pdus} {rest}")?,
        Some(fault) => format!(in alloc; "{pdus} {rest} {fault:?}")?,
    };
    put(text.as_bytes(), into)
}

/// The numbers that four words are.
fn four_numbers(words: &str) -> Option<(usize, u16, u16, usize)> {
    let mut words = words.split_whitespace();
    let length = words.next()?.parse::<usize>().ok()?;
    let most = words.next()?.parse::<u16>().ok()?;
    let head = words.next()?.parse::<u16>().ok()?;
    let index = words.next()?.parse::<usize>().ok()?;
    Some((length, most, head, index))
}

fn put_piece(alloc: Global, words: &str, into: &mut Vec<u8>) -> Result<bool, NoMemory> {
    let Some((length, most, head, index)) = four_numbers(words) else {
        return Ok(false);
    };
    if head > 40 || most < 48 {
        return Ok(false);
    }
    match piece(length, most, head, index) {
        None => put(b"none", into)?,
        Some((start, size)) => put(format!(in alloc; "{start} {size}")?.as_bytes(), into)?,
    }
    Ok(true)
}

/// A request's body with a stub of that many octets.
fn part(alloc: Global, size: usize) -> Result<RequestBody, NoMemory> {
    Ok(RequestBody {
        alloc_hint: 0,
        context: 0,
        op: 3,
        object: None,
        stub: Octets::from_vec(vec![in alloc; 7; size]?),
    })
}

fn long(alloc: Global, last: usize) -> Result<Option<Joined>, JoinFault> {
    let mut joiner = Joiner::new();
    joiner.add(Order::Big, FIRST_FRAG, 2, part(alloc, MOST_STUB - 8)?)?;
    joiner.add(Order::Big, LAST_FRAG, 2, part(alloc, last)?)
}

fn put_long(alloc: Global, word: &str, into: &mut Vec<u8>) -> Result<bool, NoMemory> {
    let Ok(last) = word.parse::<u16>() else {
        return Ok(false);
    };
    match long(alloc, last as usize) {
        Ok(None) => put(b"+", into)?,
        Ok(Some(joined)) => {
            let size = joined.stub.len();
            put(format!(in alloc; "{size}")?.as_bytes(), into)?;
        }
        Err(fault) => put_debug(alloc, &fault, into)?,
    }
    Ok(true)
}

/// A whole request. A stub that has the name `LONG` is named.
fn put_joined(
    alloc: Global,
    names: &Names,
    joined: &Joined,
    into: &mut Vec<u8>,
) -> Result<(), NoMemory> {
    let Joined {
        call_id,
        order,
        context,
        op,
        maybe,
        cancel,
        stub,
    } = joined;
    let text = format!(in alloc; "{order:?} {call_id} {context} {op} ")?;
    put(text.as_bytes(), into)?;
    if *maybe {
        put(b"maybe ", into)?;
    }
    if *cancel {
        put(b"cancel ", into)?;
    }
    match names.find(b"LONG") {
        Some(long) if long == stub.as_slice() => put(b"LONG", into),
        _ => put_hex(alloc, stub.as_slice(), into),
    }
}

/// What the PDU does to what is being joined.
fn put_pdu(
    alloc: Global,
    names: &Names,
    joiner: &mut Joiner,
    pdu: Pdu,
    into: &mut Vec<u8>,
) -> Result<(), NoMemory> {
    let Pdu {
        flags,
        order,
        call_id,
        body,
        ..
    } = pdu;
    match body {
        Body::Request(part) => match joiner.add(order, flags, call_id, part) {
            Ok(None) => put(b"+", into),
            Ok(Some(joined)) => put_joined(alloc, names, &joined, into),
            Err(fault) => put_debug(alloc, &fault, into),
        },
        Body::CoCancel => put_done(joiner.mark(call_id), b"marked", into),
        Body::Orphaned => put_done(joiner.drop_call(call_id), b"dropped", into),
        _ => put(b"nothing", into),
    }
}

fn put_done(done: bool, word: &[u8], into: &mut Vec<u8>) -> Result<(), NoMemory> {
    match done {
        true => put(word, into),
        false => put(b"nothing", into),
    }
}

fn put_joins(
    alloc: Global,
    names: &Names,
    octets: &[u8],
    into: &mut Vec<u8>,
) -> Result<(), NoMemory> {
    let mut feed = Feed::new(alloc);
    let mut joiner = Joiner::new();
    for octet in octets {
        feed.push(&[*octet])?;
        match feed.next() {
            Ok(None) => {}
            Ok(Some(pdu)) => {
                put(b".", into)?;
                put_pdu(alloc, names, &mut joiner, pdu, into)?;
            }
            Err(fault) => {
                put(b"!", into)?;
                put_debug(alloc, &fault, into)?;
            }
        }
    }
    Ok(())
}

fn put_held(alloc: Global, octets: &[u8], into: &mut Vec<u8>) -> Result<(), NoMemory> {
    let mut feed = Feed::new(alloc);
    feed.push(octets)?;
    let begins = matches!(feed.next(), Ok(Some(_)));
    let rest = feed.rest();
    let fault = feed.next().err();
    feed.push(octets)?;
    let (again, first) = (feed.rest(), feed.held().first().copied());
    let text = format!(in alloc; "{begins} {rest} {fault:?} {again} {first:?}")?;
    put(text.as_bytes(), into)
}

/// What is told of rows of streams.
pub fn streams(alloc: Global, text: &str) -> Result<Told, CasesFault> {
    answered(alloc, &mut StreamRows, text)
}
