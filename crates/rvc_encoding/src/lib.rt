// Compressed instructions, and the half-words that spell them.
#![tactic(auto)]

mod compressed;
mod decode;
mod decoding;
mod encode;
mod encoding;
mod expansion;
mod fields;
mod fit;
pub mod laws;
mod length;
mod row;
mod spread;
#[cfg(test)]
mod tests;

pub use compressed::Cins;
pub use decode::decode16;
pub use decoding::decode_bits;
pub use encode::encode16;
pub use encoding::Encoding;
pub use expansion::expand;
pub use fit::fits16;
pub use length::length_of;
pub use row::CRow;
