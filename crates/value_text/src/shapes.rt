//! What a shape holds.
ghost use Rattle.std.specs.Prelude.{◌≡◌, MatchOption, None, Some};
ghost use Rattle.ndr_value.specs.Forms.{form, arms_of, body, OfUnion};
ghost use Rattle.ndr_value.specs.Fits.{arm_of, fits_count};
ghost use Rattle.value_text.specs.Reading as spec;

use ndr_value::{Arm, ArrayKind, Shape, selected_arm, tag_fits};

/// Whether an array of that kind may have so many elements.
pub(crate) fn count_fits(kind: &ArrayKind, count: usize) -> bool
    ensures { result ≡ fits_count kind.now count }
{
    match kind {
        ArrayKind::Fixed(exact) => count == *exact as usize,
        ArrayKind::Varying(most, _) => count <= *most as usize,
        ArrayKind::Conformant(_) | ArrayKind::ConformantVarying(_, _) => count < 1 << 32,
    }
}

/// Whether an array of that kind that has so many elements may have one more.
pub(crate) fn takes(kind: &ArrayKind, count: usize) -> bool
    ensures { result ≡ spec.takes kind.now count }
{
    match kind {
        ArrayKind::Fixed(exact) => count < *exact as usize,
        ArrayKind::Varying(most, _) => count < *most as usize,
        ArrayKind::Conformant(_) | ArrayKind::ConformantVarying(_, _) => count < (1 << 32) - 1,
    }
}

/// The arm that a tag selects, where it is of the union's kind.
pub(crate) fn arm_for<'a>(kind: &Shape, arms: &'a [Arm], tag: i64) -> Option<&'a Arm>
    ensures { MatchOption result (arm_of (OfUnion (form kind.now) (arms_of arms.now)) tag ≡ None) (λ a. arm_of (OfUnion (form kind.now) (arms_of arms.now)) tag ≡ Some (body a.now.shape)) }
{
    if tag_fits(kind, tag) {
        selected_arm(arms, tag)
    } else {
        None
    }
}
