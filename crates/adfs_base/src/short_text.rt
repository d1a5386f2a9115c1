//! Texts that stand in place where they are short.
ghost use Rattle.std.specs.Prelude.{◌≡◌, ◌≤◌, IfOk, length};
ghost use Rattle.adfs_base.specs.ShortTexts.{IsText, bytes_of};
ghost use Rattle.adfs_base.specs.declared.short_text.TheConstants.{SHORT};

use crate::no_memory::NoMemory;
use std::alloc::Global;

// The bytes of the longest text that stands in place: then a text takes 16 bytes in all.
const SHORT: usize = 14;

/// A text: its bytes where it is short, or where they are.
#[derive(Drop, Debug)]
pub enum ShortText {
    /// The first `length` bytes.
    InPlace { bytes: [u8; 14], length: u8 },
    Away(Box<String>),
}

// A short text in place.
fn in_place(text: &str) -> ShortText
    requires { length text.now ≤ SHORT }
    ensures bytes { bytes_of result ≡ text.now }
    ensures text { IsText result }
{
    let mut bytes = [0; SHORT];
    bytes[..text.len()].copy_from_slice(text.as_bytes());
    ShortText::InPlace {
        bytes,
        length: text.len() as u8,
    }
}

fn away(alloc: Global, text: &str) -> Result<ShortText, NoMemory>
    ensures bytes { IfOk result (λ held. bytes_of held ≡ text.now) }
    ensures text { IfOk result IsText }
{
    let text = String::from_str(alloc, text)?;
    Ok(ShortText::Away(Box::new(alloc, text)?))
}

/// A text of its own.
pub fn text_of(alloc: Global, text: &str) -> Result<ShortText, NoMemory>
    ensures bytes { IfOk result (λ held. bytes_of held ≡ text.now) }
    ensures text { IfOk result IsText }
{
    if text.len() <= SHORT {
        Ok(in_place(text))
    } else {
        away(alloc, text)
    }
}

/// The text that is held.
pub fn text_in(held: &ShortText) -> &str
    requires { IsText held.now }
    ensures { result.now ≡ bytes_of held.now }
{
    match held {
        ShortText::InPlace { bytes, length } => match str::from_utf8(&bytes[..*length as usize]) {
            Ok(text) => text,
            Err(_) => unreachable!(),
        },
        ShortText::Away(text) => text.as_str(),
    }
}
