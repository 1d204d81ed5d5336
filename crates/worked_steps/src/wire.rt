//! A connection to a device.
use crate::fault::Shown;
use service_requests::{BytesTaken, PendingRequest, RequestEnd};
use std::alloc::Global;

/// A connection to a device: the request that is under way, and the bytes that came and weren't used.
#[derive(Drop)]
pub(crate) struct Wire {
    alloc: Global,
    pub pending: PendingRequest,
    rest: Vec<u8>,
}

impl Wire {
    pub(crate) fn new(alloc: Global) -> Wire {
        Wire {
            alloc,
            pending: PendingRequest::new(),
            rest: Vec::new(alloc),
        }
    }

    /// What becomes of the request by these bytes, after those that are left of others.
    pub(crate) fn hear(&mut self, bytes: &[u8]) -> Shown<Option<RequestEnd>> {
        self.rest.extend_from_slice(bytes)?;
        let BytesTaken { used, fate } = self.pending.take(&self.rest);
        self.rest = Vec::from_slice(self.alloc, self.rest.split_at(used).1)?;
        Ok(fate)
    }
}
