//! What a server says of an offered presentation context.

/// A context that was accepted.
#[derive(Clone, Copy, Debug, PartialEq, Eq)]
pub struct Accepted {
    /// The client's number for it.
    pub context: u16,
    /// The number of the interface that it is for, among those served, from 0.
    pub interface: u16,
}

/// What becomes of an element of a bind or an alter_context.
#[derive(Clone, Copy, Debug, PartialEq, Eq)]
pub enum Verdict {
    /// The context is accepted for the interface of that number.
    Accept(u16),
    Reject(Reason),
}

/// Why a server rejects a context (C706, "Connection-oriented RPC PDUs", reasons of a provider
/// rejection). The values are those of the wire.
#[derive(Clone, Copy, Debug, PartialEq, Eq)]
pub enum Reason {
    /// 0, not specified: the context is accepted for another interface.
    NotSpecified,
    /// 1: no interface serves the abstract syntax.
    AbstractSyntax,
    /// 2: NDR isn't among the transfer syntaxes.
    TransferSyntaxes,
    /// 3: the connection has all the contexts that it may have.
    LocalLimit,
}
