//! Texts that are written piece by piece.

use std::alloc::Global;
use std::fmt::{Debug, Display};

/// A text, and whether each of its pieces found room. A piece that finds none is left out.
#[derive(Drop)]
pub struct Page {
    text: String,
    is_whole: bool,
}

impl Page {
    /// An empty page.
    pub fn new(alloc: Global) -> Page {
        Page {
            text: String::new(alloc),
            is_whole: true,
        }
    }

    /// The text so far.
    pub fn as_str(&self) -> &str {
        self.text.as_str()
    }

    /// Whether each piece found room.
    pub fn is_whole(&self) -> bool {
        self.is_whole
    }

    /// Writes a piece at the end.
    pub fn put(&mut self, part: &str) {
        if self.text.push_str(part).is_err() {
            self.is_whole = false;
        }
    }

    /// Writes two pieces at the end.
    pub fn put_pair(&mut self, first: &str, second: &str) {
        self.put(first);
        self.put(second);
    }

    /// Writes a piece some times.
    pub fn put_times(&mut self, part: &str, times: usize) {
        for _ in 0..times {
            self.put(part);
        }
    }

    /// Writes a value as `{}` shows it.
    pub fn put_shown(&mut self, part: &impl Display) {
        if write!(self.text, "{part}").is_err() {
            self.is_whole = false;
        }
    }

    /// Writes a value as `{:?}` shows it: a variant by its name.
    pub fn put_named(&mut self, part: &impl Debug) {
        if write!(self.text, "{part:?}").is_err() {
            self.is_whole = false;
        }
    }
}
