// What imports are answered from: names, the exports of a record, and the batch that waits for a symbol.
pub(crate) mod batch;
pub(crate) mod names;
pub(crate) mod source;
