//! A tree that breaks no rule, with its outline.
ghost use Rattle.std.specs.Prelude.{◌≡◌, reverse, IfOk};
ghost use Rattle.idl_forms.specs.Forms.{Same, tree_form};
ghost use Rattle.idl_outline.specs.Outline as outlines;
ghost use Rattle.idl_rules.specs.Broken.{NoneBroken};

use idl_forms::copy_tree;
use idl_outline::{Event, Outline};
use idl_tree::Ast;
use rpc_base::NoMemory;
use std::alloc::Global;
use std::marker::Model;

/// A tree that breaks no rule, and its outline. Contracts see the tree.
#[derive(Drop)]
pub struct Checked {
    tree: Ast,
    outline: Outline,
}

impl Model for Checked {
    ghost use Rattle.idl_tree.specs.contracts.declaration.Ast as ast;
    ghost use Rattle.idl_tree.specs.declared.declaration.Ast.{Ast};
    ghost use Rattle.idl_check.specs.Outlined.{IsOutlined};

    ghost Value = { Ast };

    ghost coded = { ast.the_row.coded };

    ghost view = { λ c. c.tree };

    ghost invariant = { λ c. IsOutlined c.tree c.outline };
}

impl Checked {
    /// Keeps a tree that is the same in every item, and the outline.
    ///
    /// # Errors
    ///
    /// `NoMemory` where there is no memory for the copy.
    pub(crate) fn copy_of(alloc: Global, tree: &Ast, outline: Outline) -> Result<Checked, NoMemory>
        requires sound { NoneBroken tree.now }
        requires outlined { outline ≡ outlines.outline (tree_form tree.now) }
        ensures { IfOk result (λ c. Same c tree.now) }
    {
        let tree = copy_tree(alloc, tree)?;
        Ok(Checked { tree, outline })
    }

    /// The tree. It breaks no rule.
    pub fn tree(&self) -> &Ast
        ensures value { result.now ≡ self.now }
        ensures sound { NoneBroken self.now }
    {
        &self.tree
    }

    /// The events of its outline, the oldest first.
    pub fn events(&self) -> &[Event]
        ensures { reverse result.now ≡ outlines.outline (tree_form self.now) }
    {
        self.outline.events()
    }
}
