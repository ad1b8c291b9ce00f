//! What stands behind the log of a run: its status, and the line of a broken promise.
ghost use Rattle.std.specs.Prelude.{◌<◌, length, map};
ghost use Rattle.core_term.specs.Process.{nth_port};
ghost use Rattle.core_term.specs.ProcessView.{port_of};
ghost use Rattle.tool_answers.specs.Answered.{Says, sink_seen};
ghost use Rattle.tool_stages.specs.Logs.{breach_line};

use anvil_io::Sink;
use core_term::CoreProc;
use run_log::Broken;
use tool_answers::{Status, complain_promise};

/// The line of a broken promise of a process.
pub(crate) fn complain_breach<E: Sink>(err: &mut E, proc: &CoreProc, broken: Broken) -> Status
    requires { broken.port < length proc.now.ports.items }
    ensures { Says (breach_line broken.cycle (nth_port (map port_of proc.now.ports.items) broken.port)) Status.Breach
        result (sink_seen (E.held err.old) (E.held err.new) (E.faults err.old) (E.faults err.new)) }
{
    let ports = proc.ports.as_slice();
    let port = &ports[broken.port as usize];
    complain_promise(
        err,
        broken.cycle,
        port.endpoint.bytes(),
        port.message.bytes(),
    )
}
