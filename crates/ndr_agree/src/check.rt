//! What disagrees first, and the marks that are left.
ghost use Rattle.std.specs.Prelude.{◌≡◌};
ghost use Rattle.ndr_value.specs.Values.{vals};
ghost use Rattle.ndr_model.specs.Compare as spec;
ghost use Rattle.ndr_agree.specs.Views.{call_of, check_of};

use crate::call::Call;
use crate::named::named;
use ndr_model::{Departure, Mark};
use ndr_value::{ArrayKind, Count, Value};

/// The first that disagrees so far, and the marks that are left.
#[derive(Drop)]
pub(crate) struct Check<'m> {
    pub(crate) off: Option<Departure>,
    pub(crate) left: &'m [Mark],
}

/// A count that was read: its index, and the number.
pub(crate) type Stood = (usize, i64);

fn place_of(departure: Departure) -> usize
    ensures { result ≡ spec.place_of departure }
{
    match departure {
        Departure::Short(index) => index,
        Departure::Bound(index) => index,
        Departure::Tag(index) => index,
        Departure::Pointer(index) => index,
        Departure::Text(index) => index,
        Departure::TooDeep(index) => index,
        Departure::Trailing(index) => index,
    }
}

// The one with the lesser index.
fn sooner(first: Option<Departure>, other: Option<Departure>) -> Option<Departure>
    ensures { result ≡ spec.sooner first other }
{
    match first {
        None => other,
        Some(a) => match other {
            None => Some(a),
            Some(b) => {
                if place_of(b) < place_of(a) {
                    Some(b)
                } else {
                    Some(a)
                }
            }
        },
    }
}

fn equals(want: Option<i128>, number: i64) -> bool
    ensures { result ≡ spec.equals want number }
{
    match want {
        None => false,
        Some(wanted) => wanted == i128::from(number),
    }
}

fn count_off(want: Option<i128>, stood: Stood) -> Option<Departure>
    ensures { result ≡ spec.count_off want stood }
{
    if equals(want, stood.1) {
        None
    } else {
        Some(Departure::Bound(stood.0))
    }
}

fn tied_off(call: &Call<'_>, body: &[Value], link: Option<Count>, stood: Stood) -> Option<Departure>
    ensures { result ≡ spec.tied_off (call_of call.now) (vals body.now) link stood }
{
    match link {
        None => None,
        Some(count) => {
            if equals(named(call, body, count), stood.1) {
                None
            } else {
                Some(Departure::Tag(stood.0))
            }
        }
    }
}

impl<'m> Check<'m> {
    // The value doesn't go with the marks.
    #[inline(never)]
    pub(crate) fn stray(&mut self)
        ensures { check_of self.new ≡ spec.stray (check_of self.old) }
    {
        self.off = sooner(self.off, Some(Departure::TooDeep(0)));
    }

    pub(crate) fn judge(&mut self, found: Option<Departure>, left: &'m [Mark])
        ensures { check_of self.new ≡ spec.judged (check_of self.old) found left.now }
    {
        self.off = sooner(self.off, found);
        self.left = left;
    }

    // A count that has to be so.
    fn count(&mut self, want: Option<i128>)
        ensures { check_of self.new ≡ spec.count_in want self.old.left.now (check_of self.old) }
    {
        match self.left.split_first() {
            None => self.stray(),
            Some((mark, rest)) => match mark {
                Mark::Number(at, is) => self.judge(count_off(want, (*at, *is)), rest),
                _ => self.stray(),
            },
        }
    }

    fn max_count(&mut self, want: Option<i128>, moved: Option<Stood>)
        ensures { check_of self.new ≡ spec.most_in want moved (check_of self.old) }
    {
        match moved {
            Some(stood) => self.judge(count_off(want, stood), self.left),
            None => self.count(want),
        }
    }

    /// The counts of an array.
    #[inline(never)]
    pub(crate) fn counts(
        &mut self,
        call: &Call<'_>,
        body: &[Value],
        moved: Option<Stood>,
        kind: &ArrayKind,
    )
        ensures { check_of self.new ≡ spec.compare_counts (call_of call.now) (vals body.now) moved kind.now (check_of self.old) }
    {
        match kind {
            ArrayKind::Fixed(_) => {}
            ArrayKind::Varying(_, count) => self.count(named(call, body, *count)),
            ArrayKind::Conformant(count) => self.max_count(named(call, body, *count), moved),
            ArrayKind::ConformantVarying(most, count) => {
                self.max_count(named(call, body, *most), moved);
                self.count(named(call, body, *count));
            }
        }
    }

    /// A union's tag.
    #[inline(never)]
    pub(crate) fn tag(&mut self, call: &Call<'_>, body: &[Value], link: Option<Count>, tag: i64)
        ensures { check_of self.new ≡ spec.compare_tag (call_of call.now) (vals body.now) link tag (check_of self.old) }
    {
        match self.left.split_first() {
            None => self.stray(),
            Some((mark, rest)) => match mark {
                Mark::Number(at, _) => self.judge(tied_off(call, body, link, (*at, tag)), rest),
                _ => self.stray(),
            },
        }
    }
}
