//! PDUs of the connection-oriented protocol as octets, both ways.
#![tactic(auto)]

mod answers;
mod bodies;
mod fault;
mod fields;
mod fragments;
mod heads;
mod laws;
mod pdu;
mod reading;
mod writing;

pub use fault::PduFault;
pub use fragments::FragmentHead;
pub use heads::{raw_head, read_head};
pub use laws::{one_answer, one_pdu, spelled_is_writable, written_is_spelling};
pub use pdu::{
    AlterBody, AlterRespBody, BindAckBody, BindBody, BindNakBody, Body, ContextResult, Element,
    Elements, FaultBody, HEADER_SIZE, Head, LEAST_FRAGMENT, MAJOR_VERSION, MOST_FRAGMENT,
    MOST_MINOR, Pdu, RawHead, RequestBody, ResponseBody, Results, STUB_OFFSET, Syntaxes, Version,
    Versions, flags, ptypes,
};
pub use reading::read_pdu;
pub use writing::write_pdu;
