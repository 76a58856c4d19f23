//! The interface as text.

/// The text of the interface (C706, chapter "Interface Definition Language").
pub const MGMT_IDL: &str =
    "[uuid(afa8bd80-7d8a-11c9-bef4-08002b102989), version(1.0), pointer_default(ref)]
interface mgmt {
  typedef struct { unsigned long a; unsigned short b; unsigned short c; byte d[8]; } uuid_s;
  typedef struct { uuid_s id; unsigned short major; unsigned short minor; } if_id;
  typedef [ptr] if_id *if_id_p;
  typedef struct { unsigned long count; [size_is(count)] if_id_p ids[]; } if_id_vector;
  typedef [ptr] if_id_vector *if_id_vector_p;
  void inq_if_ids([in] handle_t b, [out] if_id_vector_p *v, [out] error_status_t *status);
  void inq_stats([in] handle_t b, [in, out] unsigned long *count, [out, size_is(*count)] unsigned long statistics[], [out] error_status_t *status);
  unsigned long is_server_listening([in] handle_t b, [out] error_status_t *status);
}
";
