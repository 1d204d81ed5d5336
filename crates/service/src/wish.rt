//! A request that may begin.
use modbus_frame::Request;
use service_parts::Aim;

/// A request that may begin, and what it is made for.
#[derive(Drop)]
pub struct Wish {
    pub aim: Aim,
    pub request: Request,
}
