//! The first breach of each rule, and the first of these.
ghost use Rattle.std.specs.Prelude.{◌≡◌, ℕ, ◌+◌, Option};
ghost use Rattle.idl_check.specs.Firsts as spec;

use idl_rules::lesser;

/// The least place where each rule is broken.
#[derive(Clone, Copy, Debug, PartialEq, Eq)]
pub(crate) struct Firsts {
    pub(crate) unknown: Option<usize>,
    pub(crate) duplicate: Option<usize>,
    pub(crate) bad_attribute: Option<usize>,
    pub(crate) size_name: Option<usize>,
    pub(crate) handle_use: Option<usize>,
    pub(crate) too_many_handles: Option<usize>,
    pub(crate) recursion: Option<usize>,
    pub(crate) union_tag: Option<usize>,
    pub(crate) outside_profile: Option<usize>,
}

/// A rule that is broken, and where.
#[derive(Clone, Copy, Debug, PartialEq, Eq)]
pub(crate) struct Breach {
    pub(crate) number: u8,
    pub(crate) at: usize,
}

impl Firsts {
    /// No rule is broken.
    pub(crate) fn none() -> Firsts
        ensures { result ≡ spec.no_breach }
    {
        Firsts {
            unknown: None,
            duplicate: None,
            bad_attribute: None,
            size_name: None,
            handle_use: None,
            too_many_handles: None,
            recursion: None,
            union_tag: None,
            outside_profile: None,
        }
    }

    /// The lesser place for each rule.
    pub(crate) fn or(self, other: Firsts) -> Firsts
        ensures { result ≡ spec.lesser_of self other }
    {
        Firsts {
            unknown: lesser(self.unknown, other.unknown),
            duplicate: lesser(self.duplicate, other.duplicate),
            bad_attribute: lesser(self.bad_attribute, other.bad_attribute),
            size_name: lesser(self.size_name, other.size_name),
            handle_use: lesser(self.handle_use, other.handle_use),
            too_many_handles: lesser(self.too_many_handles, other.too_many_handles),
            recursion: lesser(self.recursion, other.recursion),
            union_tag: lesser(self.union_tag, other.union_tag),
            outside_profile: lesser(self.outside_profile, other.outside_profile),
        }
    }
}

/// The earlier breach; `number` is above those before it.
fn earlier(best: Option<Breach>, number: u8, at: Option<usize>) -> Option<Breach>
    ensures { (f : ℕ → Option ℕ) → f number ≡ at → spec.IsFirstBelow f number best → spec.IsFirstBelow f (number + 1) result }
{
    match at {
        None => best,
        Some(at) => match best {
            None => Some(Breach { number, at }),
            Some(other) => {
                if other.at <= at {
                    best
                } else {
                    Some(Breach { number, at })
                }
            }
        },
    }
}

/// The breach with the least place, and at that place the least number.
pub(crate) fn first(firsts: Firsts) -> Option<Breach>
    ensures { (f : ℕ → Option ℕ) → spec.Gives f firsts → spec.IsFirst f result }
{
    let best = earlier(None, 1, firsts.unknown);
    let best = earlier(best, 2, firsts.duplicate);
    let best = earlier(best, 3, firsts.bad_attribute);
    let best = earlier(best, 4, firsts.size_name);
    let best = earlier(best, 5, firsts.handle_use);
    let best = earlier(best, 6, firsts.too_many_handles);
    let best = earlier(best, 7, firsts.recursion);
    let best = earlier(best, 8, firsts.union_tag);
    earlier(best, 9, firsts.outside_profile)
}
