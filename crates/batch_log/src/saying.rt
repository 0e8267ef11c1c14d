//! Saying something in a line.

use devices::{Sink, write_all};
use std::alloc::{AllocError, Global};
use std::fmt::Display;

/// Writes a line; a write that fails is passed over, and so is want of memory for the line.
pub fn say<K: Sink, D: Display>(alloc: Global, sink: &mut K, words: &D) {
    if let Ok(text) = line_of(alloc, words) {
        let _ = write_all(sink, text.as_bytes());
    }
}

fn line_of<D: Display>(alloc: Global, words: &D) -> Result<String, AllocError> {
    let mut text = String::new(alloc);
    writeln!(text, "{words}")?;
    Ok(text)
}
