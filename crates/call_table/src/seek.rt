//! Where the row of a call stands: the numbers of the rows rise.
ghost use Rattle.std.specs.Prelude.{◌≡◌, true};
ghost use Rattle.std.specs.List.{list_any};
ghost use Rattle.std.specs.Option.{option_copied};
ghost use Rattle.call_table.specs.Kept.{IsRow, Rises};
ghost use Rattle.call_table.specs.Rows as spec;
ghost use Rattle.call_table.specs.Sought.{Sought};

use crate::row::Row;
use crate::row_table::RowTable;

/// The place of the call's row.
pub fn seek(rows: &RowTable, call: u32) -> Option<usize>
    requires { Rises 0 rows.now.items }
    ensures { Sought rows.now.items call result }
{
    let at = rows.below(call);
    if at < rows.len() && rows.row(at).call == call {
        Some(at)
    } else {
        None
    }
}

/// The place of the row of a call that has one.
pub fn place(rows: &RowTable, call: u32) -> usize
    requires rise { Rises 0 rows.now.items }
    requires there { list_any (spec.is_call call) rows.now.items ≡ true }
    ensures { IsRow rows.now.items call result }
{
    match seek(rows, call) {
        Some(at) => at,
        None => unreachable!(),
    }
}

/// The call's row.
pub fn row_of(rows: &RowTable, call: u32) -> Option<&Row>
    requires { Rises 0 rows.now.items }
    ensures { option_copied result ≡ spec.row_at rows.now.items call }
{
    match seek(rows, call) {
        Some(at) => Some(rows.row(at)),
        None => None,
    }
}
