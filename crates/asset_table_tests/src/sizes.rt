//! Locks far past every small number, with ample memory. No call is made again, so one that runs out of memory at some size
//! fails its test.
mod handing;
mod locks;
