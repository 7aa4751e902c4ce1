// The writer: a whole file, and the parts that it is laid down from.
pub mod parts;
pub mod writer;
