// A new record, written step by step into the free bytes after the last one: begun, filled, then finished or given up.
// The header counts it only once it is finished, so a record that does not fit leaves every byte as it was.
pub mod bytes;
pub mod draft;
pub mod waiting;
