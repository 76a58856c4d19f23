//! The interface as text.

/// The text of the interface (C706, chapter "Interface Definition Language"). Calls with one cursor
/// come one after another; calls with one view don't wait for each other.
pub const STORE_IDL: &str =
    "[uuid(9b1d3c7e-52f4-4a0b-8e6d-1f0c2a3b4d5e), version(1.0), pointer_default(unique)]
interface store {
  typedef [context_handle] void *cursor_h;
  typedef [context_handle_noserialize] void *view_h;
  error_status_t store_open([in] handle_t b, [in, string] char *name, [out] cursor_h *c);
  error_status_t store_append([in, out] cursor_h *c, [in] unsigned long n, [in, size_is(n)] byte d[]);
  error_status_t store_read([in, out] cursor_h *c, [in] unsigned long max, [out] unsigned long *n, [out, size_is(max), length_is(*n)] byte d[]);
  error_status_t store_close([in, out] cursor_h *c);
  error_status_t store_view([in] cursor_h c, [out] view_h *v);
  error_status_t store_size([in] view_h v, [out] unsigned hyper *size);
  error_status_t store_unview([in, out] view_h *v);
}
";
