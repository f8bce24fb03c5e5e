// What the register's header counts or says beside its records: the CRS, and the missing names.
pub mod crs;
pub mod missing;
