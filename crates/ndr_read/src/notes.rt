//! Marks of what is read.
ghost use Rattle.std.specs.Prelude.{◌≡◌, ◌∷◌, [], ◌+◌, ◌-◌, pos, Option, OnOk};
ghost use Rattle.ndr_scalars.specs.Scalars.{up};
ghost use Rattle.ndr_model.specs.Part.{opened_marks, count_marks};
ghost use Rattle.ndr_model.specs.Places.{noting};
ghost use Rattle.ndr_model.specs.declared.mark.Mark.TheVariants.{Number};
ghost use Rattle.ndr_read.specs.Pieces.{most_marks};
ghost use Rattle.ndr_read.specs.Views.{last_of};

use crate::state::Tail;
use ndr_arrays::Counts;
use ndr_model::Mark;
use ndr_pointers::Reader;
use ndr_value::ArrayKind;
use rpc_base::NoMemory;

#[inline(never)]
pub(crate) fn note(mark: Mark, tail: &mut Tail<'_>) -> Result<(), NoMemory>
    ensures { OnOk result (last_of tail.new ≡ noting (mark ∷ []) (last_of tail.old)) }
{
    tail.marks.push(mark)?;
    Ok(())
}

// A number of four octets after an index.
fn note_word(
    reader: &Reader<'_>,
    at: usize,
    number: u32,
    tail: &mut Tail<'_>,
) -> Result<(), NoMemory>
    ensures { OnOk result (last_of tail.new ≡ noting (Number (up at 4) (pos number) ∷ []) (last_of tail.old)) }
{
    if at > reader.octets.len() {
        // Nothing is read behind the last octet.
        return Err(NoMemory);
    }
    note(Mark::Number((at + 3) / 4 * 4, i64::from(number)), tail)
}

/// The max_count in front of a structure, after an index.
#[inline(never)]
pub(crate) fn note_front(
    reader: &Reader<'_>,
    moved: Option<u32>,
    own: Option<u32>,
    at: usize,
    tail: &mut Tail<'_>,
) -> Result<(), NoMemory>
    ensures { OnOk result (last_of tail.new ≡ noting (opened_marks moved own at) (last_of tail.old)) }
{
    match moved {
        Some(_) => Ok(()),
        None => match own {
            None => Ok(()),
            Some(most) => note_word(reader, at, most, tail),
        },
    }
}

// The max_count of an array, unless it stands in front of a structure.
fn note_most(
    reader: &Reader<'_>,
    moved: Option<u32>,
    most: u32,
    at: usize,
    tail: &mut Tail<'_>,
) -> Result<(), NoMemory>
    ensures { OnOk result (last_of tail.new ≡ noting (most_marks moved most at) (last_of tail.old)) }
{
    match moved {
        Some(_) => Ok(()),
        None => note_word(reader, at, most, tail),
    }
}

// The actual_count of an array, which ends at an index.
fn note_actual(actual: u32, after: usize, tail: &mut Tail<'_>) -> Result<(), NoMemory>
    ensures { OnOk result (last_of tail.new ≡ noting (Number (after - 4) (pos actual) ∷ []) (last_of tail.old)) }
{
    note(
        Mark::Number(after.saturating_sub(4), i64::from(actual)),
        tail,
    )
}

/// The counts of an array, which stand between two indexes.
#[inline(never)]
pub(crate) fn note_counts(
    reader: &Reader<'_>,
    kind: &ArrayKind,
    moved: Option<u32>,
    counts: Counts,
    at: usize,
    after: usize,
    tail: &mut Tail<'_>,
) -> Result<(), NoMemory>
    ensures { OnOk result (last_of tail.new ≡ noting (count_marks kind.now moved counts at after) (last_of tail.old)) }
{
    match kind {
        ArrayKind::Fixed(_) => Ok(()),
        ArrayKind::Varying(_, _) => note_actual(counts.actual, after, tail),
        ArrayKind::Conformant(_) => note_most(reader, moved, counts.most, at, tail),
        ArrayKind::ConformantVarying(_, _) => {
            note_most(reader, moved, counts.most, at, tail)?;
            note_actual(counts.actual, after, tail)
        }
    }
}
