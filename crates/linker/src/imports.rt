// Imports: what a new module takes, and what it serves to the others.
pub(crate) mod others;
pub(crate) mod own;
