//! The interface as text.

/// The text of the interface (C706, chapter "Interface Definition Language").
pub const HELLO_IDL: &str =
    "[uuid(7d2c5e90-41b8-4f06-93aa-0c6e8b51d2f7), version(1.0), pointer_default(unique)]
interface hello {
  typedef [context_handle] void *hello_h;
  error_status_t hello_enter([in] handle_t b, [in] unsigned long guests, [out] hello_h *h);
  error_status_t hello_leave([in, out] hello_h *h);
}
";
