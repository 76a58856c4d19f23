//! The commands.

/// What the program is asked to do, and with which files, numbers and addresses.
#[derive(Clone, Copy, Debug)]
pub enum Asked<'a> {
    /// Replay a script, where one is named beside the interface of an interface text.
    Replay {
        /// The script.
        file: &'a str,
        /// The interface text.
        idl: Option<&'a str>,
    },
    /// Print an interface text in its canonical form.
    Idl {
        /// The interface text.
        file: &'a str,
    },
    /// Judge journals.
    Audit {
        /// The journals.
        file: &'a str,
    },
    /// Play a load, and tell what it comes to.
    Load {
        /// The number that it is made of.
        number: u64,
        /// How many steps it has, 100,000 at most.
        steps: u32,
    },
    /// Serve connections, where one is named beside the interface of an interface text.
    Serve {
        /// The IPv4 address to listen at.
        ip: [u8; 4],
        /// The TCP port to listen at.
        port: u16,
        /// How many connections are served, from 1 to 1,000,000.
        connections: u32,
        /// The interface text.
        idl: Option<&'a str>,
    },
    /// Make the calls of a script.
    Call {
        /// The IPv4 address of the server.
        ip: [u8; 4],
        /// Its TCP port.
        port: u16,
        /// The interface text.
        idl: &'a str,
        /// The script.
        script: &'a str,
    },
}
