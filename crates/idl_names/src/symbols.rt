//! What names stand for, and what declarations add.
ghost use Rattle.std.specs.Prelude.{◌≡◌, ℕ, List, Some, OnOk, OnErr, option_copied, bytes_eq, if◌then◌else◌};
ghost use Rattle.rpc_base.specs.Named.{at_name};
ghost use Rattle.idl_names.specs.Symbols as spec;
ghost use Rattle.idl_names.specs.Symbols.{symbols};

use idl_tree::{Ident, Num};
use rpc_base::{Names, NoMemory, named};
use std::alloc::Global;

/// What a structure's tag stands for.
#[derive(Clone, Copy, Debug, PartialEq, Eq)]
pub struct Tag<G> {
    /// Whether its body has ended.
    pub whole: bool,
    /// What is known of the structure.
    pub known: G,
}

/// What names stand for at a place. `T`: what is known of a type; `G`: what is known of a structure.
#[derive(Drop)]
pub struct SymbolTable<T, G> {
    pub types: Names<T>,
    pub constants: Names<Num>,
    pub tags: Names<Tag<G>>,
}

/// The number of a name of an enumeration, behind so many others.
pub fn number_of(name: &Ident, behind: u64) -> Num
    ensures { result ≡ spec.number_of name.now behind }
{
    Num {
        at: name.at,
        minus: false,
        value: behind,
    }
}

/// Puts a value at a name.
///
/// # Errors
///
/// `NoMemory` where there is no memory for it; all is then as it was.
#[tactic(auto, using(rpc_base::proofs::NamePuts::puts))]
pub fn declare<X: Drop>(
    names: &mut Names<X>,
    alloc: Global,
    name: &Ident,
    value: X,
) -> Result<(), NoMemory>
    ensures declared { OnOk result ((other : List ℕ) → at_name names.new other ≡ (if bytes_eq name.now.text other then Some value else at_name names.old other)) }
    ensures unchanged { OnErr result ((other : List ℕ) → at_name names.new other ≡ at_name names.old other) }
{
    let key = name.text.copy(alloc)?.into_vec();
    match names.insert(key, value) {
        Ok(_) => Ok(()),
        Err(_) => Err(NoMemory),
    }
}

fn found<G: Copy>(pointed: bool, tag: Option<Tag<G>>) -> Option<G>
    ensures { result ≡ spec.found pointed tag }
{
    match tag {
        None => None,
        Some(tag) => {
            if tag.whole || pointed {
                Some(tag.known)
            } else {
                None
            }
        }
    }
}

impl<T: Drop, G: Copy + Drop> SymbolTable<T, G> {
    /// Nothing is declared. It takes no memory.
    pub fn new(alloc: Global) -> SymbolTable<T, G>
        ensures { symbols result ≡ spec.no_symbols }
    {
        SymbolTable {
            types: Names::new(alloc),
            constants: Names::new(alloc),
            tags: Names::new(alloc),
        }
    }

    /// Declares the name of a type.
    ///
    /// # Errors
    ///
    /// `NoMemory` where there is no memory for it, as for each of these.
    pub fn with_type(&mut self, alloc: Global, name: &Ident, ty: T) -> Result<(), NoMemory>
        ensures declared { OnOk result (symbols self.new ≡ spec.with_type name.now ty (symbols self.old)) }
        ensures unchanged { OnErr result (symbols self.new ≡ symbols self.old) }
    {
        declare(&mut self.types, alloc, name, ty)
    }

    /// Declares the name of a constant.
    ///
    /// # Errors
    ///
    /// `NoMemory` where there is no memory for it.
    pub fn with_constant(&mut self, alloc: Global, name: &Ident, value: Num) -> Result<(), NoMemory>
        ensures declared { OnOk result (symbols self.new ≡ spec.with_constant name.now value (symbols self.old)) }
        ensures unchanged { OnErr result (symbols self.new ≡ symbols self.old) }
    {
        declare(&mut self.constants, alloc, name, value)
    }

    /// Declares the tag of a structure.
    ///
    /// # Errors
    ///
    /// `NoMemory` where there is no memory for it.
    pub fn with_tag(&mut self, alloc: Global, name: &Ident, tag: Tag<G>) -> Result<(), NoMemory>
        ensures declared { OnOk result (symbols self.new ≡ spec.with_tag name.now tag (symbols self.old)) }
        ensures unchanged { OnErr result (symbols self.new ≡ symbols self.old) }
    {
        declare(&mut self.tags, alloc, name, tag)
    }

    /// Declares the names of an enumeration.
    ///
    /// # Errors
    ///
    /// `NoMemory` where there is no memory for it.
    pub fn with_names(&mut self, alloc: Global, names: &[Ident]) -> Result<(), NoMemory>
        ensures { OnOk result (symbols self.new ≡ spec.with_names 0 names.now (symbols self.old)) }
    {
        let mut number = 0;
        for name in names {
            self.with_constant(alloc, name, number_of(name, number))?;
            number += 1;
        }
        Ok(())
    }

    /// The type that a name stands for.
    pub fn type_named(&self, name: &[u8]) -> Option<&T>
        ensures { option_copied result ≡ (symbols self.now).types name.now }
    {
        named(&self.types, name)
    }

    /// The number that a name stands for.
    pub fn constant_named(&self, name: &[u8]) -> Option<Num>
        ensures { result ≡ (symbols self.now).constants name.now }
    {
        named(&self.constants, name).copied()
    }

    /// The structure that a tag stands for. `pointed`: it stands behind a pointer, as it has to inside
    /// of the structure's own body.
    pub fn tag_named(&self, pointed: bool, name: &[u8]) -> Option<G>
        ensures { result ≡ spec.tag_named pointed name.now (symbols self.now) }
    {
        found(pointed, named(&self.tags, name).copied())
    }
}
