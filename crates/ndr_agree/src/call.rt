//! A message, and what its counts and switches are compared by.

use crate::named::named;
use ndr_model::Way;
use ndr_table::{Op, Table};
use ndr_value::{Count, Message, Value};

/// A message of an operation of the table. `asked` is the request, where the message is a response.
#[derive(Clone, Copy)]
pub struct Call<'a> {
    pub table: &'a Table,
    pub op: &'a Op,
    pub way: Way,
    pub asked: Option<&'a Message>,
    pub said: &'a Message,
}

impl<'a> Call<'a> {
    ghost use Rattle.std.specs.Prelude.{◌≡◌};
    ghost use Rattle.ndr_value.specs.Values.{vals};
    ghost use Rattle.ndr_model.specs.Named as spec;
    ghost use Rattle.ndr_agree.specs.Views.{call_of};

    /// What a count or a tag has to be, in a body of those members. None where nothing is named.
    pub fn wanted(&self, body: &[Value], count: Count) -> Option<i128>
        ensures { result ≡ spec.named (call_of self.now) (vals body.now) count }
    {
        named(self, body, count)
    }
}
