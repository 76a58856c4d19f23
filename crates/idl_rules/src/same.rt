//! Which labels and which attributes are of one kind.
ghost use Rattle.std.specs.Prelude.{◌≡◌};
ghost use Rattle.idl_forms.specs.Forms.{file_form, file_kind_form};
ghost use Rattle.idl_names.specs.Declarators as declarators;
ghost use Rattle.idl_rules.specs.UnionTag as tags;
ghost use Rattle.idl_rules.specs.BadAttribute as attributes;
ghost use Rattle.idl_rules.specs.Keys as keys;

use crate::again::{Again, Key};
use idl_outline::{Attribute, Label, Mark};
use idl_tree::{FileAttr, FileAttrKind, Num};

/// The number, with its sign.
pub fn value_of(number: Num) -> i128
    ensures { result ≡ declarators.value_of number }
{
    let size = i128::from(number.value);
    if number.minus { -size } else { size }
}

fn number_key(number: Option<Num>) -> Key
    ensures { result ≡ keys.number_key number }
{
    match number {
        None => Key::Own,
        Some(number) => Key::Number(value_of(number)),
    }
}

impl Again for Label {
    ghost use Rattle.idl_rules.specs.UnionTag as tags;
    ghost use Rattle.idl_rules.specs.Keys as keys;
    ghost use Rattle.idl_rules.specs.ByKey as keyed;

    ghost same = { tags.same_label };

    ghost place_of = { tags.label_place };

    ghost key_of = { keys.label_key };

    ghost by_key = { keyed.labels_by_key };

    fn key(&self) -> Key {
        match self {
            Label::Case { value, .. } => number_key(*value),
            Label::Default(_) => Key::Word,
        }
    }

    fn place(&self) -> usize {
        match self {
            Label::Case { at, .. } => *at,
            Label::Default(at) => *at,
        }
    }
}

fn kind_of(mark: &Mark) -> u8
    ensures { result ≡ attributes.kind_of mark.now }
{
    match mark {
        Mark::In => 0,
        Mark::Out => 1,
        Mark::Pointer(_) => 2,
        Mark::Text => 3,
        Mark::Idempotent => 4,
        Mark::Maybe => 5,
        Mark::Handle => 6,
        Mark::SizeIs(_) => 7,
        Mark::MaxIs(_) => 7,
        Mark::LengthIs(_) => 8,
        Mark::SwitchIs(_) => 9,
        Mark::SwitchType { .. } => 10,
        Mark::Range(..) => 11,
    }
}

impl Again for Attribute {
    ghost use Rattle.idl_rules.specs.BadAttribute as attributes;
    ghost use Rattle.idl_rules.specs.Keys as keys;
    ghost use Rattle.idl_rules.specs.ByKey as keyed;

    ghost same = { attributes.same_kind };

    ghost place_of = { attributes.place_of };

    ghost key_of = { keys.attribute_key };

    ghost by_key = { keyed.attributes_by_key };

    fn key(&self) -> Key {
        Key::Number(i128::from(kind_of(&self.mark)))
    }

    fn place(&self) -> usize {
        self.at
    }
}

fn file_kind(kind: &FileAttrKind) -> u8
    ensures { result ≡ attributes.file_kind (file_kind_form kind.now) }
{
    match kind {
        FileAttrKind::Uuid(_) => 0,
        FileAttrKind::Version(..) => 1,
        FileAttrKind::PointerDefault(_) => 2,
        FileAttrKind::Endpoint(_) => 3,
    }
}

/// Whether it is the interface's uuid.
pub fn is_uuid(attribute: &FileAttr) -> bool
    ensures { result ≡ attributes.is_uuid (file_form attribute.now) }
{
    file_kind(&attribute.what) == 0
}

impl Again for FileAttr {
    ghost use Rattle.idl_forms.specs.Forms.{file_form};
    ghost use Rattle.idl_rules.specs.BadAttribute as attributes;
    ghost use Rattle.idl_rules.specs.Keys as keys;
    ghost use Rattle.idl_rules.specs.ByKey as keyed;

    ghost same = { λ a b. attributes.same_file_kind (file_form a) (file_form b) };

    ghost place_of = { λ a. attributes.file_place (file_form a) };

    ghost key_of = { λ a. keys.file_key (file_form a) };

    ghost by_key = { λ a b. keyed.files_by_key (file_form a) (file_form b) };

    fn key(&self) -> Key {
        Key::Number(i128::from(file_kind(&self.what)))
    }

    fn place(&self) -> usize {
        self.at
    }
}
