//! The top call.
ghost use Rattle.std.specs.Prelude.{◌≡◌, ◌≢◌, ◌⊎◌, ◌<◌, List, ℕ, IfSome, IsNone};
ghost use Rattle.std.specs.Io.KnownBytes.{Appends};
ghost use Rattle.anvil_io.specs.Causes.{Rose};
ghost use Rattle.command_words.specs.Form.{Form, MayLoad, form_of, usage_line, words_of};
ghost use Rattle.command_words.specs.Seen.{HasNumber, form_seen};
ghost use Rattle.tool_answers.specs.declared.refusal.Refusal.{Refusal};
ghost use Rattle.tool_answers.specs.Answer.{Breaks, BreachFailed, Ends, HasNoFault, IsBreach, IsFirstRefusal, IsReadFault, IsRefusedBy, IsTooLong, IsUntouched, IsWritten, LineFailed, OutFailed, Overflows, Tells};
ghost use Rattle.tool_answers.specs.Answered.{Answered, shelf_seen, sink_seen};
ghost use Rattle.tool_answers.specs.Lines.{IsLineOf, no_memory_line, refusal_line};
ghost use Rattle.tool_stages.specs.SameLog.{AnswersAsRun, HasWritten};
ghost use Rattle.tool_stages.specs.Stages.{IsLineFor, start_of};

use anvil_io::{Shelf, Sink};
use command_words::{Command, form_of, usage};
use std::alloc::Global;
use tool_answers::{Status, complain_memory, complain_usage};
use tool_commands::{ModuleRun, check_file, compile_file, run_file, run_module_file, summarise};

/// Does what the words say: `check FILE` puts a line to `out` where a file keeps the timing rules, `compile FILE` then puts the modules
/// of its processes, in the order of the file, `run FILE PROC STIM` the log of a process on the rows of a stimulus,
/// `runsv FILE SV PROC STIM` that of its module in a text of modules, and `gen NUMBER` the summary of the generated file of a number.
///
/// `words` leaves out the program's own name. The shelf is asked for the files of the form alone, so each has to be one that
/// may be asked for. On every status but `Done`, `Breach` and `WriteFault` nothing is put to `out`, and on every one but `Done`
/// and `WriteFault` one line is put to `err`.
pub fn run_tool<S: Shelf, O: Sink, E: Sink>(
    alloc: Global,
    words: &[String],
    shelf: &mut S,
    out: &mut O,
    err: &mut E,
) -> Status
    requires { IfSome (form_of (words_of words.now)) (MayLoad (S.may_ask shelf.old)) }

    // The words have no form, which is told before anything is loaded.
    ensures usage { result ≡ Status.Usage → IsNone (form_of (words_of words.now)) }
    ensures no_form { IsNone (form_of (words_of words.now))
        → (result ≡ Status.Usage) ⊎ (result ≡ Status.NoMemory) ⊎ (result ≡ Status.WriteFault) }
    ensures not_asked { IsNone (form_of (words_of words.now)) → S.faults shelf.new ≡ S.faults shelf.old }
    ensures usage_line { result ≡ Status.Usage → Appends (E.held err.old) (E.held err.new) usage_line }

    // The load of a file was a fault. The line on `err` names it.
    ensures read_fault { result ≡ Status.ReadFault → Rose (S.faults shelf.old) (S.faults shelf.new) }
    ensures fault_read { S.faults shelf.old < S.faults shelf.new → (result ≡ Status.ReadFault)
        ⊎ (result ≡ Status.WriteFault) }
    ensures read_fault_line { result ≡ Status.ReadFault → IfSome (form_of (words_of words.now)) (λ form.
        IsReadFault (S.told shelf.old) (start_of form) (E.held err.old) (E.held err.new)) }

    // A file that was asked for has more bytes than its limit. The line on `err` names it.
    ensures too_long { result ≡ Status.TooLong → IfSome (form_of (words_of words.now)) (λ form.
        IsTooLong (S.told shelf.old) (start_of form) (S.taken shelf.old) (S.taken shelf.new) (E.held err.old)
        (E.held err.new)) }
    ensures every_length { IfSome (form_of (words_of words.now)) (λ form. (loaded : List (List ℕ))
        → Overflows (S.told shelf.old) (start_of form) loaded → HasNoFault (S.faults shelf.old) (S.faults shelf.new)
        → (result ≡ Status.TooLong) ⊎ (result ≡ Status.WriteFault) ⊎ (result ≡ Status.NoMemory)) }

    // A stage refuses what was loaded. The line on `err` says why and where.
    ensures refused { result ≡ Status.Refused → IfSome (form_of (words_of words.now)) (λ form.
        IsRefusedBy (S.told shelf.old) (start_of form) (E.held err.old) (E.held err.new)) }
    ensures every_refusal { IfSome (form_of (words_of words.now)) (λ form. (refusal : Refusal)
        → IsFirstRefusal (Tells (S.told shelf.old)) (start_of form) refusal
        → HasNoFault (S.faults shelf.old) (S.faults shelf.new)
        → ((result ≡ Status.Refused) × Appends (E.held err.old) (E.held err.new) (refusal_line refusal))
        ⊎ (result ≡ Status.NoMemory)
        ⊎ ((result ≡ Status.WriteFault)
        × IsUntouched (O.held out.old) (O.held out.new) (O.faults out.old) (O.faults out.new)
        × LineFailed (IsLineOf refusal) (E.held err.old) (E.held err.new) (E.faults err.old) (E.faults err.new))) }

    // No stage refuses: the text stands on `out`, and nothing was put to `err`.
    ensures done { result ≡ Status.Done → IfSome (form_of (words_of words.now)) (λ form.
        IsWritten (S.told shelf.old) (start_of form) (O.held out.old) (O.held out.new)) }
    ensures quiet { result ≡ Status.Done
        → IsUntouched (E.held err.old) (E.held err.new) (E.faults err.old) (E.faults err.new) }

    // The text stops at a broken promise. The line on `err` says where.
    ensures breach { result ≡ Status.Breach → IfSome (form_of (words_of words.now)) (λ form.
        IsBreach (S.told shelf.old) (start_of form) (O.held out.old) (O.held out.new) (E.held err.old)
        (E.held err.new)) }
    ensures every_breach { IfSome (form_of (words_of words.now)) (λ form. (text line : List ℕ)
        → Breaks (Tells (S.told shelf.old)) (start_of form) text line
        → HasNoFault (S.faults shelf.old) (S.faults shelf.new)
        → HasNoFault (O.faults out.old) (O.faults out.new)
        → HasNoFault (E.faults err.old) (E.faults err.new)
        → ((result ≡ Status.Breach) × Appends (O.held out.old) (O.held out.new) text
        × Appends (E.held err.old) (E.held err.new) line)
        ⊎ (result ≡ Status.NoMemory)) }

    // No memory was found.
    ensures no_memory_line { result ≡ Status.NoMemory → Appends (E.held err.old) (E.held err.new) no_memory_line }

    // On every other answer than `Done`, `Breach` and `WriteFault` nothing was put to `out`.
    ensures untouched { result ≢ Status.Done → result ≢ Status.WriteFault → result ≢ Status.Breach →
        IsUntouched (O.held out.old) (O.held out.new) (O.faults out.old) (O.faults out.new) }

    // A put failed, and nothing was put after it.
    ensures write_fault { result ≡ Status.WriteFault →
        ((form : Form) × (form_of (words_of words.now) ≡ Some form)
        × OutFailed (S.told shelf.old) (start_of form) (O.held out.old) (O.held out.new) (O.faults out.old)
        (O.faults out.new)
        × IsUntouched (E.held err.old) (E.held err.new) (E.faults err.old) (E.faults err.new))
        ⊎ (IsUntouched (O.held out.old) (O.held out.new) (O.faults out.old) (O.faults out.new)
        × LineFailed (IsLineFor (S.told shelf.old) (form_of (words_of words.now))) (E.held err.old) (E.held err.new)
        (E.faults err.old) (E.faults err.new))
        ⊎ ((form : Form) × (form_of (words_of words.now) ≡ Some form)
        × BreachFailed (S.told shelf.old) (start_of form) (O.held out.old) (O.held out.new) (O.faults out.old)
        (O.faults out.new) (E.held err.old) (E.held err.new) (E.faults err.old) (E.faults err.new)) }
    ensures out_fault { O.faults out.old < O.faults out.new → result ≡ Status.WriteFault }
    ensures err_fault { E.faults err.old < E.faults err.new → result ≡ Status.WriteFault }

    // Where nothing stands against it, the text is put, or no memory was found.
    ensures complete { IfSome (form_of (words_of words.now)) (λ form. (loaded : List (List ℕ))
        → Ends (Tells (S.told shelf.old)) (start_of form) loaded
        → HasNoFault (S.faults shelf.old) (S.faults shelf.new)
        → HasNoFault (O.faults out.old) (O.faults out.new)
        → HasNoFault (E.faults err.old) (E.faults err.new)
        → (result ≡ Status.Done) ⊎ (result ≡ Status.NoMemory)) }

    // `runsv` of what `compile` wrote for FILE answers as `run` does.
    ensures same_log { IfSome (form_of (words_of words.now)) (λ form. (bytes name stimulus : List ℕ)
        → HasWritten (S.told shelf.old) form bytes name stimulus
        → AnswersAsRun bytes name stimulus result (O.held out.old) (O.held out.new) (E.held err.old) (E.held err.new)) }
{
    match form_of(alloc, words) {
        Ok(Some(command)) => obey(alloc, command, shelf, out, err),
        Ok(None) => complain_usage(err, usage()),
        Err(_) => complain_memory(err),
    }
}

// Does what the command says.
fn obey<S: Shelf, O: Sink, E: Sink>(
    alloc: Global,
    command: Command<'_>,
    shelf: &mut S,
    out: &mut O,
    err: &mut E,
) -> Status
    requires asked { MayLoad (S.may_ask shelf.old) (form_seen command) }
    requires number { HasNumber command }
    ensures { Answered (start_of (form_seen command.entry)) result
        (shelf_seen (S.told shelf.old) (S.faults shelf.old) (S.faults shelf.new) (S.taken shelf.old)
        (S.taken shelf.new))
        (sink_seen (O.held out.old) (O.held out.new) (O.faults out.old) (O.faults out.new))
        (sink_seen (E.held err.old) (E.held err.new) (E.faults err.old) (E.faults err.new)) }
{
    match command {
        Command::Check { file } => check_file(alloc, file, shelf, out, err),
        Command::Compile { file } => compile_file(alloc, file, shelf, out, err),
        Command::Run {
            file,
            process,
            stimulus,
        } => run_file(alloc, file, process, stimulus, shelf, out, err),
        Command::RunModule {
            file,
            text,
            process,
            stimulus,
        } => {
            let words = ModuleRun {
                file,
                text,
                process,
                stimulus,
            };
            run_module_file(alloc, words, shelf, out, err)
        }
        Command::Generate { count } => summarise(alloc, count, out, err),
    }
}
