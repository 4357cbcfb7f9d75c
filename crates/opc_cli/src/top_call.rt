//! The top call.
ghost use Rattle.std.specs.Prelude.{◌≡◌, ◌≤◌, OnOk, IfErr};
ghost use Rattle.opc_base.specs.Outside.{Says};
ghost use Rattle.opc_cli.specs.Command.{texts};
ghost use Rattle.opc_cli.specs.NewNames.{StoresNewNames};
ghost use Rattle.opc_cli.specs.Outcome.{IsStatus, IsRefusal, Done, HasNoCommand, CannotRead, CannotWrite, IsRefused, OutOfMemory, MustCome, SaysMemoryLine};
ghost use Rattle.opc_cli.specs.Steps.{Counts, StopSaid};

use crate::command::WordFault;
use crate::lines::{OUT_OF_MEMORY, line_of};
use crate::serve::serve;
use crate::status::{BAD_WORDS, CANNOT_READ, CANNOT_WRITE, DONE, NO_MEMORY, status_of};
use crate::stop::Stop;
use crate::words::words_of;
use opc_base::{Host, HostFault, Watch};
use std::alloc::Global;
use std::thread::Threads;

/// Says that memory ran out, as far as that can be said, and answers its status.
pub fn say_no_memory<H: Host>(alloc: Global, host: &mut H) -> u8
    ensures status { result ≡ NO_MEMORY }
    ensures line { SaysMemoryLine (H.outside host.old) (H.outside host.new) }
    ensures rest { Says (H.outside host.old) (H.outside host.new) }
{
    let _ = host.say(alloc, OUT_OF_MEMORY.as_bytes());
    NO_MEMORY
}

/// Says why a run stopped, and answers its status.
fn say_stop<H: Host>(alloc: Global, host: &mut H, stop: &Stop<'_>) -> u8
    ensures { StopSaid stop.now (H.outside host.old) result (H.outside host.new) }
{
    match stop {
        Stop::Said => return CANNOT_WRITE,
        Stop::NoMemory => return say_no_memory(alloc, host),
        _ => {}
    }
    let Ok(line) = line_of(alloc, stop) else {
        return say_no_memory(alloc, host);
    };
    match host.say(alloc, line.as_slice()) {
        Ok(()) | Err(HostFault::Failed) => status_of(stop),
        Err(HostFault::NoMemory) => say_no_memory(alloc, host),
    }
}

/// All that the program does: reads its words, loads their files, stores and says the answer or says one line of what
/// went wrong, and answers the status. `words` are those after the program's own name. Want of memory is status 10, and
/// may come in any stage.
#[tactic(auto, using(crate::proofs::NewNames::stores_new_names))]
pub fn opc_run<R: Threads + Sync, H: Host, W: Watch + Sync>(
    rt: &R,
    alloc: Global,
    words: &[String],
    host: &mut H,
    watch: &W,
) -> u8
    ensures status { IsStatus result }
    ensures done { result ≡ DONE → Done (texts words.now) (H.outside host.old) (H.outside host.new) }
    ensures words { result ≡ BAD_WORDS → HasNoCommand (texts words.now) (H.outside host.old) (H.outside host.new) }
    ensures read { result ≡ CANNOT_READ → CannotRead (texts words.now) (H.outside host.old) (H.outside host.new) }
    ensures write { result ≡ CANNOT_WRITE → CannotWrite (texts words.now) (H.outside host.old) (H.outside host.new) }
    ensures refused { IsRefusal result → IsRefused (texts words.now) (H.outside host.old) result (H.outside host.new) }
    ensures memory { result ≡ NO_MEMORY → OutOfMemory (texts words.now) (H.outside host.old) (H.outside host.new) }
    ensures must_come { MustCome (texts words.now) (H.outside host.old) result (H.outside host.new) }
    ensures names { StoresNewNames (texts words.now) }
    ensures counts { Counts (H.outside host.old) (H.outside host.new) }
{
    let command = match words_of(alloc, words) {
        Ok(command) => command,
        Err(WordFault::Words) => return say_stop(alloc, host, &Stop::Words),
        Err(WordFault::NoMemory) => return say_stop(alloc, host, &Stop::NoMemory),
    };
    match serve(rt, alloc, &command, host, watch) {
        Ok(()) => DONE,
        Err(stop) => say_stop(alloc, host, &stop),
    }
}
