//! Expressions, read from lexemes.
//!
//! Reading is recursive descent with a budget of height: `nested` reads an expression that is less high than a
//! number. Literals, names and calls have the height 0; each operator, sign, NOT, IS test and pair of
//! parentheses is one higher than the highest expression inside. So no text makes it call itself more deeply
//! than the number.
//!
//! `specs/Reading.antt` says what is read, as a function over lists of lexemes, and each function of the code
//! ensures its part of that.
#![tactic(auto)]

mod expr;
mod found;
mod leaf;

pub use expr::nested;
pub use found::Found;
