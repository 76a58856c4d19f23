//! Rows of stories.

/// A line `INTERFACE | STATE | OPERATION | MESSAGE | ANSWER | STATE`: a call, what the interface keeps before it
/// and behind it, and what it is answered.
#[derive(Clone, Copy)]
pub struct Row<'a> {
    pub iface: u16,
    /// How many handles the interface has; of the store, the lengths of its first files then, and of the endpoint
    /// map, how many entries. Of management, the numbers of calls in, packets in and packets out so far.
    pub before: &'a str,
    /// A number, or `rundown`.
    pub op: &'a str,
    /// The request's stub, little-endian; behind a `;` the cookie of its first handle, and `cancelled` where the
    /// probe tells of a cancel, or `marked` where one is known of. Of a rundown, the handle's cookie.
    pub message: &'a str,
    /// The response's stub, and behind a `;` what becomes of each handle; `fault` and the status; or `no call`.
    pub answer: &'a str,
    pub after: &'a str,
}

/// The row of a line. None where it has another form.
pub fn row_of(line: &str) -> Option<Row<'_>> {
    let mut columns = line.split('|');
    let row = Row {
        iface: columns.next()?.trim().parse::<u16>().ok()?,
        before: columns.next()?.trim(),
        op: columns.next()?.trim(),
        message: columns.next()?.trim(),
        answer: columns.next()?.trim(),
        after: columns.next()?.trim(),
    };
    match columns.next() {
        None => Some(row),
        Some(_) => None,
    }
}

impl<'a> Row<'a> {
    /// The message's stub, and what stands behind it.
    pub fn message_parts(&self) -> (&'a str, &'a str) {
        self.message.split_once(';').unwrap_or((self.message, ""))
    }
}
