// Notices as UBF(A) texts. Document 02, request 5; source document 001.
#![tactic(auto)]

mod ordering;
mod placing;
mod put;
mod reading;
mod repeats;
mod scanning;
mod spans;
mod syntax;
mod words;
mod writing;

pub use reading::read;
pub use writing::write;
