// What an address asks for.
ghost use Rattle.std.specs.Prelude.{◌≡◌};
ghost use Rattle.addr_kinds.specs.Kinds.{known_of};
ghost use Rattle.addr_kinds.specs.Resolving.{allows, may_be_used, resolution, Resolves};

use crate::effects::first_options;
use crate::faults::KindFault;
use crate::kinds::KindRow;
use crate::options::apply_options;
use crate::table::kind_of;
use crate::targets::target_of;
use crate::uses::Asked;
use addr_grammar::RawSingle;
use relay_model::{FileFlags, Single};
use std::alloc::Global;

/// Whether the flags leave a file open for what it is asked.
fn allows(flags: FileFlags, asked: Asked) -> bool
    ensures { result ≡ allows flags asked }
{
    match asked {
        Asked::TwoWay => !(flags.rdonly && flags.wronly),
        Asked::Reading => !flags.wronly,
        Asked::Writing => !flags.rdonly,
    }
}

fn may_be_used(known: KindRow, flags: FileFlags, asked: Asked) -> bool
    ensures { result ≡ may_be_used (known_of known) flags asked }
{
    known.uses.offer(asked) && (!known.kind.opens_by_name() || allows(flags, asked))
}

/// What an address asks for when it is asked for this use (socat(1), "ADDRESS TYPES" and "ADDRESS OPTIONS").
/// With `general`, the flag `-g`, every kind takes the options of every group.
#[tactic(auto, unfolding(crate::specs::Resolving::resolution))]
pub fn resolve(
    alloc: Global,
    raw: &RawSingle,
    asked: Asked,
    general: bool,
) -> Result<Single, KindFault>
    ensures { Resolves (λ single. single) result (resolution raw.now asked general) }
{
    let known = kind_of(raw.keyword())?;
    let target = target_of(alloc, known.kind, raw.params())?;
    let mut options = first_options(alloc, &target)?;
    apply_options(alloc, known, general, raw.options(), &mut options)?;
    if !may_be_used(known, options.file, asked) {
        return Err(KindFault::WrongUse);
    }
    Ok(Single { target, options })
}
