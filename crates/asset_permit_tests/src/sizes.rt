//! Permits far past every small size, with ample memory. No call is made again, so one that runs out of memory
//! at some size fails its test.
mod permits;
