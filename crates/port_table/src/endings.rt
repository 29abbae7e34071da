// What becomes of a standard port.
/// A standard port at the end. Where it is left, something still works for it.
#[derive(Drop)]
pub enum Back<T> {
    Joined(T),
    Left(T),
}
