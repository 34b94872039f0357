ghost use Rattle.std.specs.Prelude.{◌≡◌, ◌++◌, ◌∷◌, IfOk, IfSome, IsUtf8, string_bytes};

use crate::OutOfMemory;
use crate::short_texts::ShortText;
use std::alloc::Global;
use std::marker::Model;
use std::rc::Rc;

#[derive(Drop)]
enum Bytes {
    Short(ShortText),
    /// shared with its copies
    Long(Rc<String>),
}

/// A text in UTF-8. Contracts see it as the list of its bytes.
pub struct Text {
    alloc: Global,
    bytes: Bytes,
}

impl Model for Text {
    ghost use Rattle.std.specs.Prelude.{List, ℕ};
    ghost use Rattle.aql_value.specs.inner.Texts.{bytes_of};

    ghost Value = { List ℕ };

    ghost view = { λ t. bytes_of t.bytes };
}

impl Text {
    /// A text of its own with the bytes of `text`.
    pub fn new(alloc: Global, text: &str) -> Result<Text, OutOfMemory>
        ensures { IfOk result (λ t. t ≡ text.now) }
    {
        let bytes = match ShortText::new(text) {
            Some(short) => Bytes::Short(short),
            None => Bytes::Long(Rc::new(alloc, String::from_str(alloc, text)?)?),
        };
        Ok(Text { alloc, bytes })
    }

    /// The text of a string, whose memory it takes where it is long.
    pub fn from_string(text: String) -> Result<Text, OutOfMemory>
        ensures { IfOk result (λ t. t ≡ string_bytes text) }
    {
        let alloc = *text.allocator();
        let bytes = match ShortText::new(text.as_str()) {
            Some(short) => Bytes::Short(short),
            None => Bytes::Long(Rc::new(alloc, text)?),
        };
        Ok(Text { alloc, bytes })
    }

    /// The one text, a slash, and the other, as the id of a document is.
    pub fn with_slash(alloc: Global, left: &str, right: &str) -> Result<Text, OutOfMemory>
        ensures { IfOk result (λ t. t ≡ left.now ++ 47 ∷ right.now) }
    {
        if let Some(short) = ShortText::with_slash(left, right) {
            return Ok(Text {
                alloc,
                bytes: Bytes::Short(short),
            });
        }
        let room = left.len().saturating_add(right.len()).saturating_add(1);
        let mut long = String::with_capacity(alloc, room)?;
        long.push_str(left)?;
        long.push('/')?;
        long.push_str(right)?;
        Ok(Text {
            alloc,
            bytes: Bytes::Long(Rc::new(alloc, long)?),
        })
    }

    /// The text, borrowed.
    pub fn as_str(&self) -> &str
        ensures { result.now ≡ self.now }
    {
        match &self.bytes {
            Bytes::Short(text) => text.as_str(),
            Bytes::Long(text) => text.as_str(),
        }
    }

    // Where its memory came from.
    pub(crate) fn allocator(&self) -> Global {
        self.alloc
    }

    /// An equal text. A long one shares its bytes with the copy.
    pub fn copy(&self, alloc: Global) -> Result<Text, OutOfMemory>
        ensures { IfOk result (λ t. t ≡ self.now) }
    {
        let bytes = match &self.bytes {
            Bytes::Short(text) => Bytes::Short(text.copy()),
            Bytes::Long(text) => Bytes::Long(text.clone()?),
        };
        Ok(Text { alloc, bytes })
    }
}

// Recalls, for a proof, that a text is in UTF-8.
pub fn recall_utf8(text: &Text)
    ensures { IsUtf8 text.now }
{
    let _text = text.as_str();
}

impl Drop for Text {
    fn drop(self) {
        let Text { alloc: _, bytes: _ } = self;
    }
}
