//! Texts cut into tokens.
#![tactic(auto)]

mod bytes;
mod cut;
mod keyword;
mod sign;
mod spot;
mod step;
mod string;
mod token;
mod written;

pub use cut::tokens;
pub use keyword::Keyword;
pub use sign::Sign;
pub use spot::end_place;
pub use token::{Token, TokenKind};
pub use written::Written;
