//! Types, seen through the names that stand for them.
ghost use Rattle.std.specs.Prelude.{◌≡◌, IfOk};
ghost use Rattle.idl_outline.specs.Types as spec;

use idl_tree::Pk;
use rpc_base::{Items, NoMemory};
use std::alloc::Global;

/// A pointer or an array.
#[derive(Clone, Copy, PartialEq, Eq)]
pub enum Layer {
    Pointer(Pk),
    /// An array of so many elements; of none where its size is a name that isn't declared.
    Array(u64),
    /// A conformant array.
    OpenArray,
}

/// A string of characters.
#[derive(Clone, Copy, PartialEq, Eq)]
pub enum Text {
    /// What a pointer points to.
    Pointed,
    /// An array of so many characters.
    Fixed(u64),
    /// A conformant array of characters.
    Open,
}

/// What stands behind all pointers and arrays of a type.
#[derive(Clone, Copy, PartialEq, Eq)]
pub enum Core {
    Boolean,
    Byte,
    Char,
    /// Characters of which `string` makes a text: an array by itself, but behind a pointer.
    Text(Text),
    /// An integer of that many octets.
    Int { unsigned: bool, size: u8 },
    ErrorStatus,
    /// An enumeration, by the number of its names.
    Enum(usize),
    /// A structure: whether a conformant array ends it, and its number among the bodies.
    Struct { open: bool, number: usize },
    /// A union: whether it has a switch, and its number among the bodies.
    Union { switched: bool, number: usize },
    Void,
    HandleT,
    /// A context handle: the number of its type, and whether calls with it come one after another.
    ContextHandle { kind: usize, serialised: bool },
    /// What a name stands for that isn't declared.
    Unknown,
}

/// A type: what stands behind its pointers and arrays, and these, the outermost first.
#[derive(Drop)]
pub struct DataType {
    pub core: Core,
    pub layers: Items<Layer>,
}

/// The type of a union's tag: what stands behind its pointers and arrays, and whether there are none.
#[derive(Clone, Copy, PartialEq, Eq)]
pub struct TagType {
    pub core: Core,
    pub by_value: bool,
}

fn core_layer(core: Core) -> Option<Layer>
    ensures { result ≡ spec.core_layer core }
{
    match core {
        Core::Text(text) => match text {
            Text::Pointed => None,
            Text::Fixed(size) => Some(Layer::Array(size)),
            Text::Open => Some(Layer::OpenArray),
        },
        _ => None,
    }
}

fn first_layer(layers: &[Layer], inner: Option<Layer>) -> Option<Layer>
    ensures { result ≡ spec.first_layer layers.now inner }
{
    match layers.split_first() {
        None => inner,
        Some((first, _)) => Some(*first),
    }
}

fn is_deep(layers: &[Layer], inner: Option<Layer>) -> bool
    ensures { result ≡ spec.is_deep layers.now inner }
{
    match layers.split_first() {
        None => false,
        Some((_, rest)) => first_layer(rest, inner).is_some(),
    }
}

impl DataType {
    /// The outermost pointer or array.
    pub fn outer(&self) -> Option<Layer>
        ensures { result ≡ spec.outer self.now }
    {
        first_layer(self.layers.as_slice(), core_layer(self.core))
    }

    /// Whether there are more of them.
    pub fn is_deeper(&self) -> bool
        ensures { result ≡ spec.deeper self.now }
    {
        is_deep(self.layers.as_slice(), core_layer(self.core))
    }

    /// The same type.
    ///
    /// # Errors
    ///
    /// `NoMemory` where there is no memory for its layers.
    pub fn copy(&self, alloc: Global) -> Result<DataType, NoMemory>
        ensures { IfOk result (λ copy. copy ≡ self.now) }
    {
        let layers = self.layers.copy(alloc)?;
        Ok(DataType {
            core: self.core,
            layers,
        })
    }

    /// The same as the type of a union's tag.
    pub fn of_tag(&self) -> TagType
        ensures { result ≡ spec.of_tag self.now }
    {
        TagType {
            core: self.core,
            by_value: self.outer().is_none(),
        }
    }
}
