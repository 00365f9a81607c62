//! What is read and what is written: sources, sinks, and the calls that read all or write all.
#![tactic(auto)]

mod fault;
mod mem_sink;
mod mem_source;
mod memory;
mod sink;
mod source;
mod std_sink;
mod std_source;

pub use fault::{Failed, InputFault, OutputFault};
pub use mem_sink::MemSink;
pub use mem_source::MemSource;
pub use sink::{Sink, write_all};
pub use source::{Source, read_all};
pub use std_sink::StdSink;
pub use std_source::StdSource;
