// The program's text: from the bytes of standard input to the bytes of standard output, with nothing of the operating
// system.
#![tactic(auto)]

pub mod answer;
pub mod line;
pub mod request;
pub mod text;
