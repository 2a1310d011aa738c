// The format of the netlist image: what its fields hold, and what is wrong with an image.
#![tactic(auto)]

pub mod faults;
pub mod fields;
pub mod header;
pub mod version;

pub use header::Header;
