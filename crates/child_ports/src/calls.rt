// The calls on the system by which programs are started.
ghost use Rattle.std.specs.Prelude.{◌≡◌, ◌∷◌, ◌++◌, [], List, Option, None, ⊤, is_some, option_map, IfErr, IfSome, IfNone, MatchResult};
ghost use Rattle.std.specs.declared.alloc.Global.{Global};
ghost use Rattle.std.specs.declared.process.command.Command.{Command};

use file_ports::Halves;
use mio::Registry;
use std::fs::Files;
use std::io;
use std::io::{PipeReader, PipeWriter, pipe};
use std::process::{Child, Command, Processes, SystemProcess};
use std::rt::HostRuntime;

/// The system, as far as programs are started on it.
pub trait ProgramCalls {
    // the commands of the programs that it started
    ghost started: { Self → Option (List (Command Global)) } = { λ _. None };
    // it refuses to start this command
    ghost refuses: { Self → Command Global → Type 0 } = { λ _ _. ⊤ };
    // it has no pipe, and reports none
    ghost lacks_pipes: { Self → Type 0 } = { λ _. ⊤ };

    ghost reports_none: { Self → Type 0 } = { λ _. ⊤ };

    /// Starts the program of this command (execve(2)).
    fn start(&mut self, command: &mut Command) -> io::Result<Child<SystemProcess>>
        ensures started { MatchResult result
            (λ _. started self.new ≡ option_map (λ all. all ++ command.old ∷ []) (started self.old))
            (λ _. started self.new ≡ started self.old) }
        ensures refused { IfErr result (λ _. refuses self.old command.old) };

    /// A pipe (pipe(2)).
    fn pipe(&self) -> io::Result<(PipeReader, PipeWriter)>
        ensures { IfErr result (λ _. lacks_pipes self.now) };

    /// Has the registry report this process's ends of a program's pipes under `key`.
    fn enroll(
        &self,
        registry: &Registry,
        key: usize,
        output: Option<PipeReader>,
        input: Option<PipeWriter>,
    ) -> Option<Halves<PipeReader, PipeWriter>>
        ensures halves { IfSome result (λ halves. (halves.reads ≡ is_some output) × (halves.writes ≡ is_some input)) }
        ensures none { IfNone result (reports_none self.now) };
}

impl ProgramCalls for HostRuntime {
    fn start(&mut self, command: &mut Command) -> io::Result<Child<SystemProcess>> {
        command.spawn(&*self)
    }

    fn pipe(&self) -> io::Result<(PipeReader, PipeWriter)> {
        pipe(self)
    }

    fn enroll(
        &self,
        registry: &Registry,
        key: usize,
        output: Option<PipeReader>,
        input: Option<PipeWriter>,
    ) -> Option<Halves<PipeReader, PipeWriter>> {
        Halves::enroll(registry, key, output, input)
    }
}
