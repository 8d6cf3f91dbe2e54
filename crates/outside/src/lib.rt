//! What the program reads and writes: files, sinks and a gate by their meanings, whole files and
//! texts, tokens and numbers.
#![tactic(auto)]

mod ends;
mod errors;
mod laws;
mod lexer;
mod memory;
mod quiet;
mod real;
mod whole;

pub use ends::{Failed, Files, Gate, Sink};
pub use laws::tokens_by_byte;
pub use lexer::{Lexer, Token};
pub use memory::{MemFiles, MemSink};
pub use quiet::{OpenGate, QuietFiles, QuietSink};
pub use real::{RealFiles, RealSink};
pub use whole::{ReadFault, put_number, read_whole, send_all};
