// Texts that stand in their value, without memory of their own.
ghost use Rattle.std.specs.Prelude.{◌≡◌, ◌++◌, ◌∷◌, IfSome};

use arrayvec::ArrayString;
use std::marker::Model;
use std::str;

// The most bytes of such a text.
const SHORT: usize = 22;

/// A text of at most 22 bytes in UTF-8. Contracts see it as the list of its bytes.
#[derive(Drop)]
pub(crate) struct ShortText {
    len: u8,
    bytes: [u8; SHORT],
}

impl Model for ShortText {
    ghost use Rattle.std.specs.Prelude.{◌≡◌, ◌≤◌, List, ℕ, length, take, IsUtf8};

    ghost Value = { List ℕ };

    ghost view = { λ s. take s.len s.bytes };

    ghost invariant = { λ s. (s.len ≤ 22) × (length s.bytes ≡ 22) × ∥ IsUtf8 (take s.len s.bytes) ∥₁ };
}

impl ShortText {
    /// A copy of `text`, if it is short.
    pub(crate) fn new(text: &str) -> Option<ShortText>
        ensures { IfSome result (λ s. s ≡ text.now) }
    {
        let len = text.len();
        if len > SHORT {
            return None;
        }
        let mut bytes = [0; SHORT];
        bytes[..len].copy_from_slice(text.as_bytes());
        Some(ShortText {
            len: len as u8,
            bytes,
        })
    }

    /// The one text, a slash, and the other, if all is short.
    pub(crate) fn with_slash(left: &str, right: &str) -> Option<ShortText>
        ensures { IfSome result (λ s. s ≡ left.now ++ 47 ∷ right.now) }
    {
        let mut text: ArrayString<SHORT> = ArrayString::new();
        if text.try_push_str(left).is_err() || text.try_push('/').is_err() {
            return None;
        }
        if text.try_push_str(right).is_err() {
            return None;
        }
        ShortText::new(text.as_str())
    }

    /// An equal text.
    pub(crate) fn copy(&self) -> ShortText
        ensures { result ≡ self.now }
    {
        ShortText {
            len: self.len,
            bytes: self.bytes,
        }
    }

    /// The text, borrowed.
    pub(crate) fn as_str(&self) -> &str
        ensures { result.now ≡ self.now }
    {
        unsafe { str::from_utf8_unchecked(&self.bytes[..self.len as usize]) }
    }
}
