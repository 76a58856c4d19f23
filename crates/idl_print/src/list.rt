//! Lists of parts.
ghost use Rattle.std.specs.Prelude.{◌++◌, OnOk};
ghost use Rattle.std.specs.List.{flat_map};
ghost use Rattle.idl_tokens.specs.declared.marks.Mark.TheVariants as marks;
ghost use Rattle.idl_tree.specs.Pieces.{commas, mark_pieces};
ghost use Rattle.idl_print.specs.Prints.{Prints};

use crate::Page;
use crate::tokens::mark;
use idl_tokens::Mark;
use rpc_base::NoMemory;

/// A part of a tree that stands in lists.
pub(crate) trait Print {
    ghost use Rattle.idl_tree.specs.Pieces.{Pieces};

    ghost pieces: { Self → Pieces };

    /// Puts the part's tokens at the end of the page.
    fn print(&self, page: &mut Page) -> Result<(), NoMemory>
        ensures { OnOk result (Prints (pieces self.now) page.old page.new) };
}

/// Parts, one behind another.
#[tactic(auto, using(crate::proofs::Printing::lists))]
pub(crate) fn each<T: Print>(page: &mut Page, parts: &[T]) -> Result<(), NoMemory>
    ensures { OnOk result (Prints (flat_map T.pieces parts.now) page.old page.new) }
{
    for part in parts {
        part.print(page)?;
    }
    Ok(())
}

/// Parts, each behind a comma.
#[tactic(auto, using(crate::proofs::Printing::commas))]
fn behind_commas<T: Print>(page: &mut Page, parts: &[T]) -> Result<(), NoMemory>
    ensures { OnOk result (Prints (flat_map (λ y. mark_pieces marks.Comma ++ T.pieces y) parts.now) page.old page.new) }
{
    for part in parts {
        mark(page, Mark::Comma)?;
        part.print(page)?;
    }
    Ok(())
}

/// Parts with commas between them.
#[tactic(auto, using(crate::proofs::Printing::printing))]
pub(crate) fn with_commas<T: Print>(page: &mut Page, parts: &[T]) -> Result<(), NoMemory>
    ensures { OnOk result (Prints (commas T.pieces parts.now) page.old page.new) }
{
    match parts.split_first() {
        None => {}
        Some((first, others)) => {
            first.print(page)?;
            behind_commas(page, others)?;
        }
    }
    Ok(())
}
