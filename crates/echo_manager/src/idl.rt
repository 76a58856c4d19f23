//! The interface as text.

/// The text of the interface (C706, chapter "Interface Definition Language").
pub const PROBE_IDL: &str =
    "[uuid(5f0c7a12-3b4d-4e6f-8a90-b1c2d3e4f506), version(1.0), pointer_default(unique)]
interface probe {
  typedef [context_handle] void *probe_h;
  error_status_t probe_open([in] handle_t b, [in] unsigned long n, [out] probe_h *h);
  error_status_t probe_close([in, out] probe_h *h);
}
";
