// Certificates: from a record of cell ratios or of resistances, or given and found sound.
#![tactic(auto)]

mod fault;
mod record;
mod resistances;
mod soundness;

pub use record::Record;
pub use resistances::{Pair, Resistances};
pub use soundness::{Certificate, Given};
