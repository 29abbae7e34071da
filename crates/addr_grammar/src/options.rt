// An option as it is written.
use relay_model::Bytes;

/// An option as it is written: its name, the value where an equals sign stands, and the offset of the text at
/// which the option begins.
#[derive(Drop)]
pub struct RawOption {
    pub name: Bytes,
    pub value: Option<Bytes>,
    pub at: u32,
}
