//! How long a state stood over a line: it begins at some of the line's bits and ends at others.
//! It knows places, and no event and no node.
#![tactic(auto)]

mod span_sum;
mod spans;

pub use span_sum::SpanSum;
pub use spans::Spans;
