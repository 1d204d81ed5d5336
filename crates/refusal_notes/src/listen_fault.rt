//! Why nothing can be served at an address.

/// Why nothing can be served at an address.
#[derive(Clone, Copy, PartialEq, Eq, Debug)]
pub enum ListenFault {
    /// Another program has the port.
    InUse,
    /// The address isn't one of this machine.
    NotAvailable,
    /// The system doesn't allow it.
    Denied,
    /// The system gives another reason.
    Failed,
}

impl ListenFault {
    /// Its word, as it is printed.
    pub fn word(self) -> &'static str {
        match self {
            ListenFault::InUse => "InUse",
            ListenFault::NotAvailable => "NotAvailable",
            ListenFault::Denied => "Denied",
            ListenFault::Failed => "Failed",
        }
    }

    /// What is wrong.
    pub fn meaning(self) -> &'static str {
        match self {
            ListenFault::InUse => "another program has the port",
            ListenFault::NotAvailable => "the address isn't one of this machine",
            ListenFault::Denied => "the system doesn't allow it: a port below 1024 needs a right",
            ListenFault::Failed => "the system gives no socket for it",
        }
    }
    /// What to do about it.
    pub fn help(self) -> &'static str {
        match self {
            ListenFault::InUse => {
                "give another port, by --listen of serve or --port of simulate, or end the program that has it"
            }
            ListenFault::NotAvailable => {
                "give an address of this machine by --listen, as 127.0.0.1:1502, or 0.0.0.0:1502 for all of its own"
            }
            ListenFault::Denied => {
                "give a port from 1024 on, by --listen of serve or --port of simulate"
            }
            ListenFault::Failed => {
                "give another address by --listen of serve, or another port by --port of simulate"
            }
        }
    }
}
