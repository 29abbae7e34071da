// Addresses as they are written, before their keywords and options are looked up.
ghost use Rattle.std.specs.Prelude.{◌≡◌, map};
ghost use Rattle.addr_grammar.specs.Addresses.{Parts, Named, IsSingle, named};

use crate::options::RawOption;
use relay_model::Bytes;
use std::marker::Model;

/// One address, or one half of a dual address. Contracts disregard the offsets of its options.
#[derive(Drop)]
pub struct RawSingle {
    keyword: Bytes,
    params: Vec<Bytes>,
    options: Vec<RawOption>,
}

impl Model for RawSingle {
    ghost use Rattle.addr_grammar.specs.Addresses.{Parts, named, IsSingle};
    ghost use Rattle.std.specs.Prelude.{map};

    ghost Value = { Parts };

    ghost view = { λ single. record { keyword = single.keyword; params = single.params.items; options = map named single.options.items } };

    ghost invariant = { λ single. IsSingle (record { keyword = single.keyword; params = single.params.items; options = map named single.options.items }) };
}

impl RawSingle {
    pub(crate) fn of(keyword: Bytes, params: Vec<Bytes>, options: Vec<RawOption>) -> RawSingle
        requires { IsSingle (record { keyword = keyword; params = params.items; options = map named options.items }) }
        ensures { result ≡ record { keyword = keyword; params = params.items; options = map named options.items } }
    {
        RawSingle {
            keyword,
            params,
            options,
        }
    }

    /// The keyword, as it is written but `GOPEN` for a file name and `STDIO` for `-`.
    pub fn keyword(&self) -> &[u8]
        ensures value { result.now ≡ self.now.keyword }
        ensures single { IsSingle self.now }
    {
        self.keyword.as_slice()
    }

    /// The parameters, any of which may be empty.
    pub fn params(&self) -> &[Bytes]
        ensures { result.now ≡ self.now.params }
    {
        self.params.as_slice()
    }

    /// The options, in the order of the text.
    pub fn options(&self) -> &[RawOption]
        ensures { map named result.now ≡ self.now.options }
    {
        self.options.as_slice()
    }
}

/// An address: one for both ways, or one to read from and one to write to.
#[derive(Drop)]
pub enum RawAddress {
    One(RawSingle),
    Two(RawSingle, RawSingle),
}
