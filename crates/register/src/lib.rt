// The register: certificates in a lent table of entries, one for each thermometer. A withdrawn certificate stays withdrawn, whatever is imported.
#![tactic(auto)]

mod imports;
mod readings;
mod table;
mod withdrawals;

pub use imports::import;
pub use readings::read;
pub use withdrawals::withdraw;
