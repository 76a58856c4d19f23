//! The interface as text.

/// The text of the interface (C706, chapter "Endpoint Mapper Interface Definition", with this
/// runtime's names and limits). Calls with one handle come one after another.
pub const EPM_IDL: &str =
    "[uuid(e1af8308-5d1f-11c9-91a4-08002b14a0fa), version(3.0), pointer_default(ref)]
interface ept {
  typedef struct { unsigned long a; unsigned short b; unsigned short c; byte d[8]; } uuid_s;
  typedef [ptr] uuid_s *uuid_p;
  typedef struct { uuid_s id; unsigned short major; unsigned short minor; } if_id;
  typedef [ptr] if_id *if_id_p;
  typedef struct { unsigned long tower_length; [size_is(tower_length)] byte octets[]; } twr_t;
  typedef [ptr] twr_t *twr_p;
  typedef struct { uuid_s object; twr_p tower; [string] char annotation[64]; } ept_entry_t;
  typedef [context_handle] void *lookup_h;
  void ept_insert([in] handle_t b, [in] unsigned long num_ents, [in, size_is(num_ents)] ept_entry_t entries[], [in] unsigned long replace, [out] error_status_t *status);
  void ept_delete([in] handle_t b, [in] unsigned long num_ents, [in, size_is(num_ents)] ept_entry_t entries[], [out] error_status_t *status);
  void ept_lookup([in] handle_t b, [in] unsigned long inquiry_type, [in] uuid_p object, [in] if_id_p interface_id, [in] unsigned long vers_option, [in, out] lookup_h *h, [in] unsigned long max_ents, [out] unsigned long *num_ents, [out, size_is(max_ents), length_is(*num_ents)] ept_entry_t entries[], [out] error_status_t *status);
  void ept_map([in] handle_t b, [in] uuid_p object, [in] twr_p map_tower, [in, out] lookup_h *h, [in] unsigned long max_towers, [out] unsigned long *num_towers, [out, size_is(max_towers), length_is(*num_towers)] twr_p towers[], [out] error_status_t *status);
  void ept_lookup_handle_free([in] handle_t b, [in, out] lookup_h *h, [out] error_status_t *status);
}
";
