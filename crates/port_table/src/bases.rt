// What a place stands on.
ghost use Rattle.std.specs.Prelude.{◌≡◌, IfSome};
ghost use Rattle.port_table.specs.Bases.{IsStandard, is_keyed, is_standard, key_of, standard_of};

use relay_model::{Part, Place, Single, Target};

/// What a place stands on: a standard stream, standard input and output together, or the made port of a key.
#[derive(Clone, Copy, PartialEq, Eq)]
pub enum Base {
    Input,
    Output,
    Both,
    Errors,
    Made(usize),
}

impl Base {
    /// The key of the made port; none where it is a standard stream.
    pub fn made_key(self) -> Option<usize>
        ensures { result ≡ key_of self }
    {
        match self {
            Base::Made(key) => Some(key),
            Base::Input | Base::Output | Base::Both | Base::Errors => None,
        }
    }

    /// Whether it is a standard stream, or two.
    pub fn is_standard(self) -> bool
        ensures { result ≡ is_standard self }
    {
        match self {
            Base::Made(_) => false,
            Base::Input | Base::Output | Base::Both | Base::Errors => true,
        }
    }

    /// Whether it is the made port of the key.
    pub fn is_keyed(&self, key: usize) -> bool
        ensures { result ≡ is_keyed key self.now }
    {
        match self {
            Base::Made(other) => *other == key,
            Base::Input | Base::Output | Base::Both | Base::Errors => false,
        }
    }
}

/// The standard streams that the address names; none where it is no standard stream.
pub fn standard_base(place: Place, single: &Single) -> Option<Base>
    ensures value { result ≡ standard_of place single.now.target }
    ensures standard { IfSome result (λ base. IsStandard base) }
{
    match &single.target {
        Target::Stdio => Some(match place.part {
            Part::Both => Base::Both,
            Part::Reading => Base::Input,
            Part::Writing => Base::Output,
        }),
        Target::Stdin => Some(Base::Input),
        Target::Stdout => Some(Base::Output),
        Target::Stderr => Some(Base::Errors),
        _ => None,
    }
}
