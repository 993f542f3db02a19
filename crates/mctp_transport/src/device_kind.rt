//! What a device of a network is (DSP0236, "Get Endpoint ID": endpoint type).

/// What a device is.
#[derive(Clone, Copy, Debug, PartialEq, Eq)]
pub enum DeviceKind {
    /// Endpoint type 0: an endpoint and no more.
    Endpoint,
    /// Endpoint type 1: a bridge, which forwards packets of others.
    Bridge,
}
