// The top call: from words and a source to a status and what is written.

ghost use Rattle.std.specs.Prelude.{◌≡◌, ◌≢◌, ◌+◌, ◌<◌, ◌⊎◌, ℕ, [], None, true, IsTrue};
ghost use Rattle.std.specs.Io.KnownBytes.{Appends, IsAtEnd};
ghost use Rattle.clap.specs.Walk.{texts};
ghost use Rattle.command_words.specs.Wanted.{Takes, Wanted, asks_to_show, bench};
ghost use Rattle.spmd_ports.specs.Counts.{Rose};
ghost use Rattle.spmd_answer.specs.Due.{Due, is_run};
ghost use Rattle.spmd_tool.specs.Behaves.{Behaves};
ghost use Rattle.spmd_tool.specs.Due.{AreWrong, AskFor, IsDue, IsOrNoMemory, IsRunnable, IsUnplanned, ReadFor, all_settings, is_said, most_bytes, reads, source_for};
ghost use Rattle.whole_streams.specs.Streams.{TakesBytes, WhereTold, WritesPart, RoseOneOf, NoneRose};
ghost use Rattle.spmd_tool.specs.Written.{WritesDue, WritesPartOfDue, WritesReceipt, WritesRefusal, WritesRun};

use crate::answer::{Trouble, answer_in};
use plan_input::Status;
use spmd_answer::{Host, Receipt};
use spmd_ports::{Failed, Gate, Sink, Source};
use std::alloc::Global;
use std::thread::Threads;
use whole_streams::write_all;

/// Does what the words ask for, which stand without the program's name: `seq [NAME=VALUE..]`,
/// `verify [--sweep NAME=LOW:HIGH] [NAME=VALUE..]`, `plan --workers P [NAME=VALUE..]`,
/// `run --workers P [--plan PLAN] [--by ENGINE] [--barrier BARRIER] [NAME=VALUE..]`, where PLAN is
/// `made`, where left out too, `barrier` or `given`, ENGINE `spmd`, where left out too, `join` or
/// `core`, and BARRIER `arrive`, where left out too, or `dissemination`, or `bench --workers P N M`,
/// as `clap` reads them, or `--help` or `--version`. But for `bench` the source is read to its end, with the plan
/// behind it where one is given, and then the answer is written to the sink. The certificates of a
/// plan are checked side by side on threads of `rt`, and a run by join or spmd goes on threads of
/// `rt`, whose workers are handed the gate; when they pass it no clause says.
///
/// With `Done`, `SourceRefused`, `BadWords`, `PlanRefused` and `TooLong` the text that is due was
/// written, with `WriteFault` a part from its front, with `ReadFault` and `NoMemory` nothing. The
/// first fault counts: of the words, of the settings' form, of the reading and the length, of the
/// source and the settings' names, of the plan, of the writing. The receipt is there exactly where
/// the status is `Done` and `run` or `bench` was asked for.
pub fn tool<R: Threads + Sync, S: Source, K: Sink, G: Gate + Sync>(
    rt: &R,
    alloc: Global,
    words: &[&str],
    source: &mut S,
    sink: &mut K,
    gate: &G,
) -> (Status, Option<Receipt>)
    // The headline: where the words stand for a request, with status 0 the bytes of the source stand
    // for a program that may be run, and what is asked for was written, which is of `run` the text of
    // a plan and then the sequential output, of `plan` the text of a plan that is made and then that
    // of its reasons, and of `verify` with a sweep a line for each value.
    ensures headline { (w : Wanted) → Takes (texts words.now) w → result.0 ≡ Status.Done
        → WritesRun w (S.left source.old) (K.written sink.old) (K.written sink.new) }

    // What is written, when each status comes, how far the source is read, when a fault is told, and
    // the receipt of a run.
    ensures behaves { Behaves (record {
      words = texts words.now;
      before = record {
        left = S.left source.old;
        source_faults = S.faults source.old;
        written = K.written sink.old;
        sink_faults = K.faults sink.old;
        empties = K.empties sink.old;
      };
      behind = record {
        left = S.left source.new;
        source_faults = S.faults source.new;
        written = K.written sink.new;
        sink_faults = K.faults sink.new;
        empties = K.empties sink.new;
      };
      status = result.0;
      receipt = result.1;
    }) }

    // Unless words stand for a request that reads the source and whose settings have the form of
    // settings, nothing is read.
    ensures unread { ((w : Wanted) → ReadFor (texts words.now) w → ⊥) → source.new ≡ source.old }

    // With a read fault, and where memory runs out, nothing was written.
    ensures unwritten { (result.0 ≡ Status.ReadFault) ⊎ (result.0 ≡ Status.NoMemory)
        → sink.new ≡ sink.old }
{
    carry_out(rt, alloc, words, source, sink, gate)
}

// The same, fact by fact, as `Behaves` has them.
fn carry_out<R: Threads + Sync, S: Source, K: Sink, G: Gate + Sync>(
    rt: &R,
    alloc: Global,
    words: &[&str],
    source: &mut S,
    sink: &mut K,
    gate: &G,
) -> (Status, Option<Receipt>)
    ensures headline { (w : Wanted) → Takes (texts words.now) w → result.0 ≡ Status.Done
        → WritesRun w (S.left source.old) (K.written sink.old) (K.written sink.new) }
    ensures end { (w : Wanted) → Takes (texts words.now) w → reads w ≡ true → result.0 ≡ Status.Done
        → IsAtEnd (S.left source.new) }
    ensures receipt { (w : Wanted) → Takes (texts words.now) w → is_run w ≡ true
        → result.0 ≡ Status.Done
        → WritesReceipt w (S.left source.old) (K.written sink.old) (K.written sink.new) result.1 }
    ensures no_receipt { ((w : Wanted) → Takes (texts words.now) w → is_run w ≡ true
        → result.0 ≡ Status.Done → ⊥) → result.1 ≡ None }
    ensures due { IsTrue (is_said result.0)
        → WritesDue (texts words.now) (S.left source.old) result.0 (K.written sink.old)
        (K.written sink.new) }
    ensures exact { NoneRose (S.faults source.old) (S.faults source.new) (K.faults sink.old)
        (K.faults sink.new) (K.empties sink.old) (K.empties sink.new)
        → WhereTold (S.left source.old) (λ bytes. (due : Due) → IsDue (texts words.now) bytes due
        → IsOrNoMemory due.status result.0) }
    ensures complete { NoneRose (S.faults source.old) (S.faults source.new) (K.faults sink.old)
        (K.faults sink.new) (K.empties sink.old) (K.empties sink.new)
        → WhereTold (S.left source.old) (λ bytes. (w : Wanted) → AskFor (texts words.now) w
        → IsRunnable w (source_for w bytes) → IsOrNoMemory Status.Done result.0) }
    ensures complete_bench { NoneRose (S.faults source.old) (S.faults source.new)
        (K.faults sink.old) (K.faults sink.new) (K.empties sink.old) (K.empties sink.new)
        → (workers points sweeps : ℕ) → Takes (texts words.now) (bench workers points sweeps)
        → IsOrNoMemory Status.Done result.0 }
    ensures refused_plan { (w : Wanted) → Takes (texts words.now) w → result.0 ≡ Status.PlanRefused
        → WritesRefusal w (S.left source.old) (K.written sink.old) (K.written sink.new) }
    ensures unplanned { NoneRose (S.faults source.old) (S.faults source.new) (K.faults sink.old)
        (K.faults sink.new) (K.empties sink.old) (K.empties sink.new)
        → WhereTold (S.left source.old) (λ bytes. (w : Wanted) → AskFor (texts words.now) w
        → IsUnplanned w (source_for w bytes) → IsOrNoMemory Status.PlanRefused result.0) }
    ensures wrong_words { AreWrong (texts words.now) → (result.0 ≡ Status.BadWords)
        ⊎ ((result.0 ≡ Status.WriteFault) ⊎ (result.0 ≡ Status.NoMemory)) }
    ensures shown_words { asks_to_show (texts words.now) ≡ true → (result.0 ≡ Status.Done)
        ⊎ ((result.0 ≡ Status.WriteFault) ⊎ (result.0 ≡ Status.NoMemory)) }
    ensures right_words { (w : Wanted) → AskFor (texts words.now) w → all_settings w ≡ []
        → result.0 ≢ Status.BadWords }
    ensures unread { ((w : Wanted) → ReadFor (texts words.now) w → ⊥) → source.new ≡ source.old }
    ensures end_refused { result.0 ≡ Status.SourceRefused → IsAtEnd (S.left source.new) }
    ensures end_unplanned { result.0 ≡ Status.PlanRefused → IsAtEnd (S.left source.new) }
    ensures end_named { (w : Wanted) → ReadFor (texts words.now) w → result.0 ≡ Status.BadWords
        → IsAtEnd (S.left source.new) }
    ensures stops { result.0 ≡ Status.TooLong
        → TakesBytes (S.left source.old) (S.left source.new) (most_bytes + 1) }
    ensures read_fault { result.0 ≡ Status.ReadFault
        → Rose (S.faults source.old) (S.faults source.new) }
    ensures no_read_fault { S.faults source.old < S.faults source.new
        → result.0 ≡ Status.ReadFault }
    ensures unwritten { result.0 ≡ Status.ReadFault → sink.new ≡ sink.old }
    ensures unwritten_for_memory { result.0 ≡ Status.NoMemory → sink.new ≡ sink.old }
    ensures write_fault { result.0 ≡ Status.WriteFault
        → RoseOneOf (K.faults sink.old) (K.faults sink.new) (K.empties sink.old)
        (K.empties sink.new) }
    ensures no_write_fault { K.faults sink.old < K.faults sink.new → result.0 ≡ Status.WriteFault }
    ensures no_empty_answer { K.empties sink.old < K.empties sink.new
        → result.0 ≡ Status.WriteFault }
    ensures part { result.0 ≡ Status.WriteFault
        → WritesPartOfDue (texts words.now) (S.left source.old) (K.written sink.old)
        (K.written sink.new) }
{
    let host = Host { rt, alloc, gate };
    match answer_in(&host, words, source) {
        Ok((answer, receipt)) => {
            let status = say(sink, &answer.text, answer.status);
            (status, kept(status, receipt))
        }
        Err(Trouble::ReadFault) => (Status::ReadFault, None),
        Err(Trouble::NoMemory) => (Status::NoMemory, None),
    }
}

// A receipt, where all was done.
fn kept(status: Status, receipt: Option<Receipt>) -> Option<Receipt>
    ensures done { status ≡ Status.Done → result ≡ receipt }
    ensures undone { status ≢ Status.Done → result ≡ None }
{
    if status == Status::Done {
        receipt
    } else {
        None
    }
}

// Writes a text, and answers the status, or that a write failed.
fn say<K: Sink>(sink: &mut K, text: &[u8], status: Status) -> Status
    requires { IsTrue (is_said status) }
    ensures outcome { result ≢ Status.WriteFault → result ≡ status }
    ensures said { result ≢ Status.WriteFault
        → Appends (K.written sink.old) (K.written sink.new) text.now }
    ensures fault { result ≡ Status.WriteFault
        → RoseOneOf (K.faults sink.old) (K.faults sink.new) (K.empties sink.old)
        (K.empties sink.new) }
    ensures part { result ≡ Status.WriteFault
        → WritesPart (K.written sink.old) (K.written sink.new) text.now }
    ensures no_fault { K.faults sink.old < K.faults sink.new → result ≡ Status.WriteFault }
    ensures no_empty { K.empties sink.old < K.empties sink.new → result ≡ Status.WriteFault }
{
    match write_all(sink, text) {
        Ok(()) => status,
        Err(Failed) => Status::WriteFault,
    }
}
