use arrayvec::ArrayVec;

/// What is done at a request on endpoint 0 (USB 2.0, 8.5.3 and 9.3).
#[derive(Drop)]
pub enum Decision {
    /// A data stage for the host with these bytes, which the request's length cuts.
    Data(ArrayVec<u8, 512>),
    /// A data stage from the host with so many bytes, 1 to 64.
    Take(u8),
    /// No data stage: the status stage follows.
    Status,
    /// The request is refused by STALL (USB 2.0, 9.2.7).
    Stall,
}
