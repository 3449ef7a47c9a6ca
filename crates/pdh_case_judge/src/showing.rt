//! What is printed of a case.

use std::io;

// The most differences of a case that are shown.
const MOST_SHOWN: usize = 8;

// Prints the first differences, and how many more there are.
fn show_differences<R: Print>(rt: &R, differences: &[String]) -> io::Result<()> {
    for difference in differences.iter().take(MOST_SHOWN) {
        println!(rt; "  {difference}")?;
    }
    let more = differences.len().saturating_sub(MOST_SHOWN);
    if more > 0 {
        println!(rt; "  and {more} more")?;
    }
    Ok(())
}

/// Prints whether a case came out as expected, and what differs.
pub fn show<R: Print>(rt: &R, name: &str, differences: &[String]) -> io::Result<()> {
    if differences.is_empty() {
        return println!(rt; "{name}: as expected");
    }
    println!(rt; "{name}: differs")?;
    show_differences(rt, differences)
}
