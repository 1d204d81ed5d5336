//! The bytes of a connection to devices, as the service takes and gives them.
use service::Service;
use service_edges::{Giver, Taker};

/// Takes what comes over a connection to devices.
#[derive(Drop)]
pub(crate) struct FromLink<'s> {
    pub service: &'s mut Service,
    pub number: usize,
    pub now: u64,
}

impl Taker for FromLink<'_> {
    ghost use Rattle.std.specs.Prelude.{None};

    ghost taken = { λ _. None };

    fn take(&mut self, bytes: &[u8]) -> usize {
        self.service.from_link(self.number, bytes, self.now)
    }
}

/// Has what goes out over a connection to devices.
#[derive(Drop)]
pub(crate) struct ToLink<'s> {
    pub service: &'s mut Service,
    pub number: usize,
}

impl Giver for ToLink<'_> {
    ghost use Rattle.std.specs.Prelude.{None};

    ghost left = { λ _. None };

    fn waiting(&self) -> &[u8] {
        self.service.to_link(self.number)
    }

    fn gone(&mut self, n: usize) {
        if n > 0 {
            self.service.sent_to_link(self.number, n);
        }
    }
}
