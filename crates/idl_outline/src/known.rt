//! What is kept beside the events: what they declare.
ghost use Rattle.std.specs.Prelude.{◌≡◌, OnOk, OnErr};
ghost use Rattle.idl_outline.specs.Names as spec;
ghost use Rattle.idl_outline.specs.Kept.{shown};

use crate::event::Event;
use crate::manner::Structure;
use crate::ty::DataType;
use idl_names::{SymbolTable, Tag, declare};
use rpc_base::{Names, NoMemory};
use std::alloc::Global;

/// What is declared.
#[derive(Drop)]
pub(crate) struct Known {
    /// What names stand for.
    pub(crate) symbols: SymbolTable<DataType, Structure>,
    /// The names of operations.
    pub(crate) operations: Names<()>,
    /// The tags of unions and enumerations.
    pub(crate) others: Names<()>,
}

impl Known {
    /// Nothing is declared. It takes no memory.
    pub(crate) fn new(alloc: Global) -> Known
        ensures { shown result ≡ spec.nothing_declared }
    {
        Known {
            symbols: SymbolTable::new(alloc),
            operations: Names::new(alloc),
            others: Names::new(alloc),
        }
    }

    /// Adds what an event declares.
    ///
    /// # Errors
    ///
    /// `NoMemory` where there is no memory for it.
    pub(crate) fn hear(&mut self, alloc: Global, event: &Event) -> Result<(), NoMemory>
        ensures heard { OnOk result (shown self.new ≡ spec.declared_by event.now (shown self.old)) }
        ensures unchanged { OnErr result (shown self.new ≡ shown self.old) }
    {
        match event {
            Event::Typedef { name, ty } => {
                let ty = ty.copy(alloc)?;
                self.symbols.with_type(alloc, name, ty)
            }
            Event::Constant { name, value, .. } => self.symbols.with_constant(alloc, name, *value),
            Event::EnumName { name, value } => self.symbols.with_constant(alloc, name, *value),
            Event::Operation(name) => declare(&mut self.operations, alloc, name, ()),
            Event::StructBegins { tag, number, .. } => {
                let (whole, number) = (false, *number);
                let known = Structure {
                    ends_open: false,
                    number,
                };
                self.symbols.with_tag(alloc, tag, Tag { whole, known })
            }
            Event::StructEnds { tag, open, number } => {
                let (whole, ends_open, number) = (true, *open, *number);
                let known = Structure { ends_open, number };
                self.symbols.with_tag(alloc, tag, Tag { whole, known })
            }
            Event::OtherTag(name) => declare(&mut self.others, alloc, name, ()),
            Event::TypeUsed(_)
            | Event::TagUsed { .. }
            | Event::ConstantUsed(_)
            | Event::VoidUsed(_)
            | Event::Union { .. }
            | Event::Body { .. }
            | Event::Single(_)
            | Event::Call { .. } => Ok(()),
        }
    }
}
