//! The tokens of a text.
ghost use Rattle.std.specs.Prelude.{◌≡◌, ◌+◌, ◌<◌, ◌≤◌, ◌^◌, ℕ, List, [], ◌∷◌, MatchOption, IfOk, length};
ghost use Rattle.idl_tokens.specs.Tokens.{AreTokens, BeginsNone, BeginsWith, depth_behind as depth_test, is_uuid_word as uuid_word_test, opens_round as round_test};
ghost use Rattle.idl_tokens.specs.Contexts.{IsStep, TellsContext};
ghost use Rattle.idl_tokens.specs.declared.kinds.Kind.{Kind};

use crate::firsts::{first_token, uuid};
use crate::gaps::behind_gap;
use crate::{Bracket, Kind, Token, Word};
use rpc_base::NoMemory;
use std::alloc::Global;

/// What the tokens before a place say of the next one.
#[derive(Clone, Copy)]
struct Context {
    /// How many brackets are open.
    depth: usize,
    /// Whether the last token is `uuid`.
    after_uuid: bool,
    /// Whether the last two are `uuid` and `(`.
    wants_uuid: bool,
}

/// The next token, and what is behind it; or the last one.
enum Step<'a> {
    More(Token, &'a [u8]),
    Last(Token),
}

fn depth_behind(kind: &Kind, depth: usize) -> usize
    requires { depth + 1 < 2 ^ 64 }
    ensures value { result ≡ depth_test kind.now depth }
    ensures most { result ≤ depth + 1 }
{
    match kind {
        Kind::Open(_, _) => depth + 1,
        Kind::Shut(_) => depth.saturating_sub(1),
        _ => depth,
    }
}

fn is_uuid_word(kind: &Kind) -> bool
    ensures { result ≡ uuid_word_test kind.now }
{
    matches!(kind, Kind::Word(Word::Uuid))
}

fn opens_round(kind: &Kind) -> bool
    ensures { result ≡ round_test kind.now }
{
    matches!(kind, Kind::Open(Bracket::Round, _))
}

impl Context {
    /// At the text's begin.
    fn start() -> Self
        ensures tells { TellsContext result [] }
        ensures none { result.depth ≡ 0 }
    {
        Context {
            depth: 0,
            after_uuid: false,
            wants_uuid: false,
        }
    }

    /// Behind one token more.
    fn behind(self, kind: &Kind) -> Self
        requires { self.depth + 1 < 2 ^ 64 }
        ensures tells { (before : List Kind) → TellsContext self before → TellsContext result (kind.now ∷ before) }
        ensures most { result.depth ≤ self.depth + 1 }
    {
        Context {
            depth: depth_behind(kind, self.depth),
            after_uuid: is_uuid_word(kind),
            wants_uuid: opens_round(kind) && self.after_uuid,
        }
    }
}

/// The token at the front, and what is behind it.
fn token(alloc: Global, context: Context, text: &[u8]) -> Result<Option<(Kind, &[u8])>, NoMemory>
    requires { context.depth + 1 < 2 ^ 64 }
    ensures { IfOk result (λ found. (before : List Kind) → TellsContext context before
        → MatchOption found (BeginsNone before text.now) (λ p. BeginsWith before text.now p.0 p.1.now)) }
{
    if context.wants_uuid {
        return match uuid(text) {
            Some((id, rest)) => Ok(Some((Kind::Uuid(id), rest))),
            None => Ok(None),
        };
    }
    first_token(alloc, context.depth, text)
}

/// The next token of a text of so many octets, of which this is left.
fn next_step<'a>(
    alloc: Global,
    total: usize,
    context: Context,
    text: &'a [u8],
) -> Result<Step<'a>, NoMemory>
    requires left { length text.now ≤ total }
    requires depth { context.depth + 1 < 2 ^ 64 }
    ensures { IfOk result (λ step. (before : List Kind) → TellsContext context before → IsStep total before text.now step) }
{
    let here = behind_gap(text);
    let at = total - here.len();
    if here.is_empty() {
        return Ok(Step::Last(Token {
            at,
            kind: Kind::End,
        }));
    }
    match token(alloc, context, here)? {
        Some((kind, rest)) => Ok(Step::More(Token { at, kind }, rest)),
        None => Ok(Step::Last(Token {
            at,
            kind: Kind::Bad,
        })),
    }
}

/// The tokens of a text. The last one is `End` at the text's length, or `Bad` at the first octet
/// that begins no token, or of an unfinished token or comment (C706, "Interface Definition
/// Language").
///
/// # Errors
///
/// `NoMemory` where there is no memory for the tokens.
pub fn tokens(alloc: Global, text: &[u8]) -> Result<Vec<Token>, NoMemory>
    ensures { IfOk result (λ tokens. AreTokens text.now tokens.items) }
{
    let mut tokens = Vec::new(alloc);
    let mut context = Context::start();
    let mut rest = text;
    'tokens: loop {
        match next_step(alloc, text.len(), context, rest)? {
            Step::More(token, after) => {
                context = context.behind(&token.kind);
                tokens.push(token)?;
                rest = after;
            }
            Step::Last(token) => {
                tokens.push(token)?;
                return Ok(tokens);
            }
        }
    }
}
