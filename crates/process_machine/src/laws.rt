//! Laws of the machine of a process and of its state bits, each the contract of a function that does nothing.
ghost use Rattle.process_machine.specs.Rereads.{MachinesAgree, MachinesReread};
ghost use Rattle.process_machine.specs.StateBits.{StateBitsAreBounded, ThreadBitsAreBounded};
ghost use Rattle.process_machine.specs.TurnMachine.{TurnMachinesAreThreads};

/// What the machine of a process shows is a re-reading run of the process.
pub fn machines_reread()
    ensures { MachinesReread }
{}

/// While promises are kept, the machine of a process that keeps the timing rules agrees with the source run.
pub fn machines_agree()
    ensures { MachinesAgree }
{}

/// Over nodes that stand for the points of one turn, the equations of nodes and acts make a machine of the thread.
pub fn turn_machines_are_threads()
    ensures { TurnMachinesAreThreads }
{}

/// The state bits of the machine of a thread are within the sum over the constructs of its body.
pub fn thread_bits_are_bounded()
    ensures { ThreadBitsAreBounded }
{}

/// The state bits of a process are within the widths of its registers and the sums over its threads.
pub fn state_bits_are_bounded()
    ensures { StateBitsAreBounded }
{}
