// The whole program, but for the devices that it runs on.
ghost use Rattle.std.specs.Prelude.{◌≡◌, ◌≢◌, ◌<◌, ◌⊎◌, List, ℕ, None, Some, Ok, Err};
ghost use Rattle.pf_shelf.specs.Count.{Rose};
ghost use Rattle.pf_shelf.specs.Files.{Tells, held, IsAsBefore};
ghost use Rattle.pf_say.specs.declared.stop.Stop.{Stop};
ghost use Rattle.pf_say.specs.Stop.{status_of};
ghost use Rattle.pf_words.specs.Grammar.{texts_of, command_of};
ghost use Rattle.pf_cmd.specs.Words.{command_in};
ghost use Rattle.pf_cmd.specs.Input.{files_in};
ghost use Rattle.pf_cmd.specs.Commands.{Command as Asked, Input, input_in, IsUnnamed};
ghost use Rattle.pf_cmd.specs.Runs.{Runs, IsStatus, IsPerformed, IsRefusal, IsUnread, IsMissed, IsUnfinished, AllowsRefusal, IsFaultless};

use crate::perform::perform;
use crate::say::{say, say_forgotten, say_stop};
use crate::words::command_in;
use pf_driver::Gate;
use pf_shelf::{Shelf, Sink};
use std::alloc::Global;
use std::thread::Threads;

const WORDS_REFUSED: &[u8] = b"parfum: words refused\n";

/// Does all that the program does, and gives the exit status.
///
/// `words` are those behind the program's name: `adapt BASE OUT [--workers W] [--ops N] [--turns N] [--scale S]`,
/// `replay BASE OUT [--scale S]`, `check BASE [--scale S]`, `chunks BASE [--scale S]`, `trace BASE FILE [--scale S]` or
/// `demo N`. Files are read and written through `shelf`, and one text is said to `out`. All texts are made ready before the
/// first write. Workers run in threads of `rt`, and pass `gate` before each of their turns.
///
/// | Status | It comes |
/// |---|---|
/// | 0 | the command is done |
/// | 1 | the input is refused |
/// | 2 | the words are in no command's form |
/// | 3 | a read failed |
/// | 4 | a write failed, on the shelf or on `out` |
/// | 5 | memory ran out |
/// | 6 | an operation of the journal is refused |
/// | 7 | a file that is read isn't there |
pub fn run<R: Threads + Sync, S: Shelf, K: Sink, G: Gate + Sync>(
    rt: &R,
    alloc: Global,
    words: &[&str],
    shelf: &mut S,
    out: &mut K,
    gate: &G,
) -> u8
    // A text is due, with a status, and it is said. Where `out` fails, it gains a prefix of it, and the status is 4.
    ensures due { Runs (texts_of words.now) (S.seen shelf.old) (S.seen shelf.new) (K.heard out.old) (K.heard out.new) result }

    // What each status says.
    ensures done { Tells (S.seen shelf.old).told → result ≡ 0 → IsPerformed (texts_of words.now) (S.seen shelf.old) (S.seen shelf.new) (K.heard out.old) (K.heard out.new) }
    ensures refused { Tells (S.seen shelf.old).told → (result ≡ 1) ⊎ ((result ≡ 6) ⊎ (result ≡ 7)) →
        IsRefusal (texts_of words.now) (S.seen shelf.old) (K.heard out.old) (K.heard out.new) result }
    ensures words_only { result ≡ 2 → command_of (texts_of words.now) ≡ None }
    ensures unread { result ≡ 3 → IsUnread (texts_of words.now) (S.seen shelf.old) (S.seen shelf.new) (K.heard out.old) (K.heard out.new) }
    ensures unwritten { result ≡ 4 → Rose (S.seen shelf.old).write_faults (S.seen shelf.new).write_faults
        ⊎ Rose (K.heard out.old).faults (K.heard out.new).faults }
    ensures unfinished { Tells (S.seen shelf.old).told → result ≡ 4 → IsUnfinished (texts_of words.now) (S.seen shelf.old) (S.seen shelf.new) (K.heard out.old) (K.heard out.new) }
    ensures missing { result ≡ 7 → IsMissed (texts_of words.now) (S.seen shelf.old) (S.seen shelf.new) (K.heard out.old) (K.heard out.new) }

    // When each status comes, want of memory aside. A fault that a device counted is answered as that fault.
    ensures words_always { command_of (texts_of words.now) ≡ None → IsStatus 2 (K.heard out.old) (K.heard out.new) result ⊎ (result ≡ 5) }
    ensures refused_always { (command : Asked) (stop : Stop) → Tells (S.seen shelf.old).told →
        command_in (texts_of words.now) ≡ Some command → input_in command (files_in (S.seen shelf.old) command.stems) ≡ Err stop →
        AllowsRefusal (S.seen shelf.old) (S.seen shelf.new) (K.heard out.old) (K.heard out.new) → (result ≡ status_of stop) ⊎ (result ≡ 5) }
    ensures done_always { (command : Asked) (input : Input) → Tells (S.seen shelf.old).told →
        command_in (texts_of words.now) ≡ Some command → input_in command (files_in (S.seen shelf.old) command.stems) ≡ Ok input →
        IsFaultless (S.seen shelf.old) (S.seen shelf.new) (K.heard out.old) (K.heard out.new) → (result ≡ 0) ⊎ (result ≡ 5) }
    ensures unread_always { (S.seen shelf.old).read_faults < (S.seen shelf.new).read_faults → IsStatus 3 (K.heard out.old) (K.heard out.new) result }
    ensures missing_always { (S.seen shelf.old).misses < (S.seen shelf.new).misses → IsStatus 7 (K.heard out.old) (K.heard out.new) result }
    ensures unwritten_always { (S.seen shelf.old).write_faults < (S.seen shelf.new).write_faults → result ≡ 4 }
    ensures unsaid_always { (K.heard out.old).faults < (K.heard out.new).faults → result ≡ 4 }

    // A run that isn't done leaves every file as it was, unless a write failed.
    ensures as_before { result ≢ 0 → result ≢ 4 → IsAsBefore (S.seen shelf.old).told (S.seen shelf.new).told }

    // Whatever it answers, a file that the command doesn't write is as before.
    ensures others { (command : Asked) (name : List ℕ) → command_in (texts_of words.now) ≡ Some command → IsUnnamed command name →
        held (S.seen shelf.new).told name ≡ held (S.seen shelf.old).told name }
{
    ran(rt, alloc, words, shelf, out, gate)
}

fn ran<R: Threads + Sync, S: Shelf, K: Sink, G: Gate + Sync>(
    rt: &R,
    alloc: Global,
    words: &[&str],
    shelf: &mut S,
    out: &mut K,
    gate: &G,
) -> u8
    ensures runs { Runs (texts_of words.now) (S.seen shelf.old) (S.seen shelf.new) (K.heard out.old) (K.heard out.new) result }
    ensures others { (command : Asked) (name : List ℕ) → command_in (texts_of words.now) ≡ Some command → IsUnnamed command name →
        held (S.seen shelf.new).told name ≡ held (S.seen shelf.old).told name }
{
    let Ok(asked) = command_in(alloc, words) else {
        return say_forgotten(out);
    };
    let Some(command) = asked else {
        return say(out, WORDS_REFUSED, 2);
    };
    match perform(rt, alloc, shelf, command, gate) {
        Ok(report) => say(out, &report, 0),
        Err(stop) => say_stop(alloc, out, command.stems, stop),
    }
}
