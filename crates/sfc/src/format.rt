// The bytes of a container: its header with the lists in it, and a chunk by itself.
pub mod chunk;
pub mod extension;
pub mod header;
pub mod layout;
pub mod limits;
pub mod lookup;
pub mod priority;
pub mod spot;
pub mod text;
