//! I/O: a shelf of files and a sink for bytes, with a buffered writer,
//! with fakes of both in memory and adapters over real files and streams, and a host that lends a
//! shelf and an output together.
#![tactic(auto)]

pub mod answers;
mod append;
mod block_writer;
mod file_list;
pub mod file_shelf;
mod first_bytes;
pub mod host;
pub mod memory_shelf;
pub mod memory_sink;
pub mod output_shelf;
pub mod outside;
mod pieces;
mod replace;
pub mod steady_shelf;
pub mod steady_sink;
pub mod stored;
pub mod text_sink;
mod under_name;

pub use answers::{Failed, Loaded, ShelfFault, SinkFault};
pub use block_writer::{BLOCK_LEN, BlockWriter, lemma_block_len};
pub use file_shelf::FileShelf;
pub use host::Host;
pub use memory_shelf::MemoryShelf;
pub use memory_sink::MemorySink;
pub use output_shelf::OutputShelf;
pub use outside::{Shelf, Sink};
pub use steady_shelf::SteadyShelf;
pub use steady_sink::SteadySink;
pub use stored::Stored;
pub use text_sink::TextSink;
pub use under_name::store_under;
