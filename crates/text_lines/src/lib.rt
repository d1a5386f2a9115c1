//! The lines of a text, one at a time, and the words of a line.
//!
//! A line ends with a line feed, and a carriage return before it is dropped. The last line may lack its
//! end, and then keeps a carriage return. A text that ends with a line feed has no empty line after it.
//!
//! A contract sees `Lines` as the list of the lines that are left (`lines` of std), so reading a line is
//! taking the head of that list.
//!
//! All that reads lines finds here too what stands before the first space and after it (`cut`), the bytes after a
//! place (`after`), the place of the first line feed (`feed_at`), and whether bytes are decimal digits (`all_digits`).
//! Nothing here takes memory.
#![tactic(auto)]

mod lines;
mod words;

pub use lines::Lines;
pub use words::{after, all_digits, cut, feed_at};
