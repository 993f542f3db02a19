//! What a drawing shows.
use mctp_transport::Eid;

/// Which rows a drawing shows.
#[derive(Clone, Copy)]
pub enum DrawnRows {
    /// None: it shows buses, ports and owners.
    Hidden,
    /// All, those of a node to a next node together.
    All,
    /// Those by which packets for an endpoint ID go.
    For(Eid),
}
