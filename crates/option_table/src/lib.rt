// The options of an address: one table of them, and how their values are read.
#![tactic(auto)]

mod literals;
mod names;
mod networks;
mod numbers;
mod rows;
mod table;
mod values;

pub use literals::{ipv4_literal, ipv6_literal};
pub use names::same_name;
pub use networks::{has_port, read_bind, read_range};
pub use numbers::{read_number, read_short_number, read_time};
pub use rows::{Form, Group, Lookup, OptionId, OptionRow, Phase};
pub use table::lookup;
pub use values::{Value, read_value};
