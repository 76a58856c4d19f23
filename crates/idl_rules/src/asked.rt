//! What is asked of types, of where a field stands and of its attributes.
ghost use Rattle.std.specs.Prelude.{◌≡◌};
ghost use Rattle.idl_rules.specs.Types as spec;

use idl_outline::{Core, DataType, Extent, Field, Layer, Mark, Place};
use idl_tree::Pk;

/// Whether it is neither a pointer nor an array.
pub fn by_value(ty: &DataType) -> bool
    ensures { result ≡ spec.by_value ty.now }
{
    ty.outer().is_none()
}

/// Whether it is what an undeclared name stands for.
pub fn is_unknown(core: Core) -> bool
    ensures { result ≡ spec.is_unknown core }
{
    matches!(core, Core::Unknown)
}

/// Whether it is char, or a string of it.
pub fn is_char(core: Core) -> bool
    ensures { result ≡ spec.is_char core }
{
    matches!(core, Core::Char | Core::Text(_))
}

/// Whether it is void.
pub fn is_void(core: Core) -> bool
    ensures { result ≡ spec.is_void core }
{
    matches!(core, Core::Void)
}

/// Whether it is `handle_t`.
pub fn is_handle_t(core: Core) -> bool
    ensures { result ≡ spec.is_handle_t core }
{
    matches!(core, Core::HandleT)
}

/// Whether it is a context handle.
pub fn is_context_handle(core: Core) -> bool
    ensures { result ≡ spec.is_context_handle core }
{
    matches!(core, Core::ContextHandle { .. })
}

/// Whether it is an integer.
pub fn is_integer(core: Core) -> bool
    ensures { result ≡ spec.is_integer core }
{
    matches!(core, Core::Int { .. })
}

/// Whether it is an integer but `unsigned hyper`, char, boolean or an enumeration: what a union's tag
/// may be.
pub fn is_tag_core(core: Core) -> bool
    ensures { result ≡ spec.is_tag_core core }
{
    match core {
        Core::Int { unsigned, size } => !(unsigned && size == 8),
        Core::Char => true,
        Core::Text(_) => true,
        Core::Boolean => true,
        Core::Enum(_) => true,
        _ => false,
    }
}

/// The kind of type that a name in an attribute has to be of.
#[derive(Clone, Copy, PartialEq, Eq)]
pub enum Asked {
    Integer,
    /// What a union's tag may be.
    Tag,
}

/// Whether it is of the kind that is asked for.
pub fn is_asked(asked: Asked, core: Core) -> bool
    ensures { result ≡ spec.is_asked asked core }
{
    match asked {
        Asked::Integer => is_integer(core),
        Asked::Tag => is_tag_core(core),
    }
}

/// Whether it is a structure that a conformant array ends.
pub fn is_open_struct(core: Core) -> bool
    ensures { result ≡ spec.is_open_struct core }
{
    match core {
        Core::Struct { open, .. } => open,
        _ => false,
    }
}

/// Whether it is a union without a switch.
pub fn is_bare_union(core: Core) -> bool
    ensures { result ≡ spec.is_bare_union core }
{
    match core {
        Core::Union { switched, .. } => !switched,
        _ => false,
    }
}

/// Whether it is a pointer.
pub fn is_pointer_layer(layer: Option<Layer>) -> bool
    ensures { result ≡ spec.is_pointer_layer layer }
{
    match layer {
        None => false,
        Some(layer) => match layer {
            Layer::Pointer(_) => true,
            Layer::Array(_) => false,
            Layer::OpenArray => false,
        },
    }
}

/// Whether it is a reference pointer.
pub fn is_ref_layer(layer: Option<Layer>) -> bool
    ensures { result ≡ spec.is_ref_layer layer }
{
    match layer {
        None => false,
        Some(layer) => match layer {
            Layer::Array(_) => false,
            Layer::OpenArray => false,
            Layer::Pointer(class) => match class {
                Pk::Ref => true,
                Pk::Unique => false,
                Pk::Ptr => false,
            },
        },
    }
}

/// Whether it is a conformant array.
pub fn is_open_layer(layer: Option<Layer>) -> bool
    ensures { result ≡ spec.is_open_layer layer }
{
    match layer {
        None => false,
        Some(layer) => match layer {
            Layer::OpenArray => true,
            Layer::Array(_) => false,
            Layer::Pointer(_) => false,
        },
    }
}

/// Whether it is `ref`.
pub fn is_ref(class: Pk) -> bool
    ensures { result ≡ spec.is_ref class }
{
    matches!(class, Pk::Ref)
}

/// Whether it is one pointer to what has no further pointers or arrays.
pub fn is_one_pointer(ty: &DataType) -> bool
    ensures { result ≡ spec.is_one_pointer ty.now }
{
    is_pointer_layer(ty.outer()) && !ty.is_deeper()
}

/// Whether a declarator is no array.
pub fn is_single(extent: Extent) -> bool
    ensures { result ≡ spec.is_single extent }
{
    matches!(extent, Extent::Single)
}

/// Whether a declarator is a conformant array.
pub fn is_open_extent(extent: Extent) -> bool
    ensures { result ≡ spec.is_open_extent extent }
{
    matches!(extent, Extent::Open)
}

/// Whether it is the place of a typedef.
pub fn is_typedef(place: Place) -> bool
    ensures { result ≡ spec.is_typedef place }
{
    matches!(place, Place::Typedef)
}

/// Whether it is the place of an operation.
pub fn is_operation(place: Place) -> bool
    ensures { result ≡ spec.is_operation place }
{
    matches!(place, Place::Operation)
}

/// Whether it is the place of a parameter.
pub fn is_parameter(place: Place) -> bool
    ensures { result ≡ spec.is_parameter place }
{
    matches!(place, Place::Parameter)
}

/// Whether it is the place of a member.
pub fn is_member(place: Place) -> bool
    ensures { result ≡ spec.is_member place }
{
    matches!(place, Place::Member)
}

/// Whether it is the place of an arm.
pub fn is_arm(place: Place) -> bool
    ensures { result ≡ spec.is_arm place }
{
    matches!(place, Place::Arm)
}

/// Whether it is the place of a parameter, a member or an arm.
pub fn is_listed(place: Place) -> bool
    ensures { result ≡ spec.is_listed place }
{
    is_parameter(place) || is_member(place) || is_arm(place)
}

/// What an attribute may say.
#[derive(Clone, Copy, PartialEq, Eq)]
pub enum Saying {
    In,
    Out,
    /// `string`.
    Text,
    /// One of the three words for context handles.
    Handle,
    Maybe,
    /// `size_is` or `max_is`.
    Most,
    SwitchType,
}

/// Whether it says so.
pub fn says(saying: Saying, mark: &Mark) -> bool
    ensures { result ≡ spec.says saying mark.now }
{
    match saying {
        Saying::In => matches!(mark, Mark::In),
        Saying::Out => matches!(mark, Mark::Out),
        Saying::Text => matches!(mark, Mark::Text),
        Saying::Handle => matches!(mark, Mark::Handle),
        Saying::Maybe => matches!(mark, Mark::Maybe),
        Saying::Most => matches!(mark, Mark::SizeIs(_) | Mark::MaxIs(_)),
        Saying::SwitchType => matches!(mark, Mark::SwitchType { .. }),
    }
}

/// Whether an attribute of the field says so.
pub fn has(field: &Field, saying: Saying) -> bool
    ensures { result ≡ spec.has (spec.says saying) field.now }
{
    field
        .attributes
        .as_slice()
        .iter()
        .any(|attribute| says(saying, &attribute.mark))
}
