//! Why an output doesn't stand.

use pdh_report_words::Named;

/// Why an output doesn't stand.
#[derive(Clone, Copy, Debug, PartialEq, Eq)]
pub enum OutputFault<'a> {
    /// The file of this name can't be written.
    Unwritten(&'a str),
    /// Two files that the words name by different names are one.
    OneFile(Named, Named),
    /// Memory was wanting.
    OutOfMemory,
}
