// A command over files in memory.
ghost use Rattle.std.specs.Prelude.{◌≡◌, ◌≢◌, ◌⊎◌, IsFalse};
ghost use Rattle.cs_io.specs.Faults.{Rose};
ghost use Rattle.cs_io.specs.MemSinks.{sink_state};
ghost use Rattle.cs_io.specs.MemStores.{store_state};
ghost use Rattle.cs_io.specs.Memory.{is_planned};
ghost use Rattle.cs_words.specs.Commands.{IsWithin};
ghost use Rattle.cs_run.specs.declared.status.Status.TheVariants.{ReadFault, WriteFault};
ghost use Rattle.cs_run.specs.Commands.{reads_of};
ghost use Rattle.cs_run.specs.Inputs.{AreThere};
ghost use Rattle.cs_run.specs.Runs.{Ran};
ghost use Rattle.cs_run.specs.Worlds.{world};

use crate::commands::run_command;
use crate::status::Status;
use cs_io::{MemSink, MemStore};
use cs_words::Command;
use std::alloc::Global;

/// Does what a command says over files in memory, and answers the status. Where no call is to fail, it is never that of a
/// read fault if the store has the files that the command reads, and that of a write fault only if the store or the sink
/// found no memory.
pub fn run_in_memory(
    alloc: Global,
    command: &Command,
    store: &mut MemStore,
    out: &mut MemSink,
) -> Status
    requires { IsWithin command.now }
    ensures ran { Ran command.now (world (store_state store.old) (sink_state out.old))
        (world (store_state store.new) (sink_state out.new)) result }
    ensures read { IsFalse (is_planned store.old.plan) → AreThere (reads_of command.now) store.old.files
        → result ≢ ReadFault }
    ensures written { IsFalse (is_planned store.old.plan) → IsFalse (is_planned out.old.plan)
        → result ≡ WriteFault → Rose store.old.dry store.new.dry ⊎ Rose out.old.dry out.new.dry }
{
    run_command(alloc, command, store, out)
}
