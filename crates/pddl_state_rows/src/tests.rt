//! Rows of the kernels, both stores side by side, and growths refused in turn.
mod kernels;
mod memory;
mod operations;
mod samples;
mod sets;
mod stores;
mod trials;
