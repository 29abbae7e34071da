// Echo pipes as ports.
ghost use Rattle.relay_model.specs.declared.commands.Target.TheVariants as targets;
ghost use Rattle.socket_kinds.specs.{OnPort};
ghost use Rattle.real_maker.specs.Kinds.{IsOpenedFor};

use crate::ports::RealPort;
use port_objects::EchoPort;
use port_trait::Making;
use relay_model::NoMemory;
use socket_maker::HostPort;
use std::alloc::Global;

/// How many bytes an echo pipe holds.
const ECHO_BYTES: usize = 65_536;

/// The port of a socket, also while its host is looked up.
pub type OfSocket = HostPort;

/// An echo pipe.
pub(crate) fn make_echo(alloc: Global) -> Making<RealPort>
    ensures { OnPort (IsOpenedFor targets.Echo) result }
{
    match EchoPort::new(alloc, ECHO_BYTES) {
        Ok(port) => Making::Made(RealPort::Echo(port)),
        Err(NoMemory) => Making::Memory,
    }
}
