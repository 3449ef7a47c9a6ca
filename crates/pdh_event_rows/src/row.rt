//! An event as a row.

/// What a row says of an event.
#[derive(Clone, Copy, Debug, PartialEq)]
pub struct EventRow<'a> {
    /// The path of the node, as `/2/3`.
    pub node: &'a str,
    /// The kind, as `lost`.
    pub kind: &'a str,
    /// The bit of the node's received line that shows it.
    pub node_bit: u64,
    /// The bit of the recording with which it comes, counted from the recording's start.
    pub place: u64,
    /// The code of a far end alarm and control channel; no other event has a value.
    pub value: Option<u8>,
}
