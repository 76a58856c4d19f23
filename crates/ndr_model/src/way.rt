//! Which way a stub goes.

/// A request, with the parameters that go in, or a response, with those that come out and the result.
#[derive(Clone, Copy, Debug, PartialEq, Eq)]
pub enum Way {
    Request,
    Response,
}
