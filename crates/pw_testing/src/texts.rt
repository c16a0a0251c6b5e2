//! Texts, made of their lines.

use std::alloc::{AllocError, Global};

/// The lines, with a line feed between each two.
pub fn joined(alloc: Global, lines: &[&str]) -> Result<String, AllocError> {
    let mut text = String::new(alloc);
    for (place, line) in lines.iter().enumerate() {
        if place > 0 {
            text.push('\n')?;
        }
        text.push_str(*line)?;
    }
    Ok(text)
}

/// The lines, with a line feed after each.
pub fn ended(alloc: Global, lines: &[&str]) -> Result<String, AllocError> {
    let mut text = String::new(alloc);
    for line in lines {
        text.push_str(*line)?;
        text.push('\n')?;
    }
    Ok(text)
}
