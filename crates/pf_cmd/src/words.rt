// What the words of the command line ask for, as a command.
ghost use Rattle.std.specs.Prelude.{◌≡◌, IfOk, IfSome};
ghost use Rattle.std.specs.Option.{option_map};
ghost use Rattle.pf_words.specs.Grammar.{texts_of, IsBounded as IsWithin};
ghost use Rattle.pf_words.specs.Shown.{shown as asked_by};
ghost use Rattle.pf_cmd.specs.Words.{command_for, command_in};
ghost use Rattle.pf_cmd.specs.Commands.{IsScaled, IsTaskBounded};
ghost use Rattle.pf_cmd.specs.Shown.{shown};

use pf_geom::NoMemory;
use pf_say::Stems;
use pf_words::Words;
use std::alloc::Global;

/// What is to be done.
#[derive(Clone, Copy, Debug, PartialEq, Eq)]
pub(crate) enum Task {
    /// A mesh is adapted by so many workers, each taking at most so many turns, by at most so many operations, where that
    /// many are said.
    Adapt {
        workers: u32,
        ops: Option<u32>,
        turns: u32,
    },
    /// A journal is replayed on a mesh.
    Replay,
    /// A mesh is checked.
    Check,
    /// What the chunks of a mesh share is listed.
    Chunks,
    /// A trace is run on a mesh.
    Trace,
    /// A grid with so many cells a side is adapted.
    Demo {
        cells: u32,
    },
}

/// A command, with the stems of its files. Coordinates that are read are multiplied by `scale`.
#[derive(Clone, Copy, Debug)]
pub(crate) struct Command<'a> {
    pub(crate) task: Task,
    pub(crate) stems: Stems<'a>,
    pub(crate) scale: u32,
}

/// The command that the words ask for, or none exactly where they are in no command's form.
pub(crate) fn command_in<'a>(
    alloc: Global,
    words: &'a [&'a str],
) -> Result<Option<Command<'a>>, NoMemory>
    ensures command { IfOk result (λ asked. option_map shown asked ≡ command_in (texts_of words.entry.now)) }
    ensures scaled { IfOk result (λ asked. IfSome asked (λ command. IsScaled (shown command))) }
    ensures bounded { IfOk result (λ asked. IfSome asked (λ command. IsTaskBounded command.task)) }
{
    match pf_words::read(alloc, words)? {
        Some(asked) => Ok(Some(command_for(asked))),
        None => Ok(None),
    }
}

// What is asked, as a command.
fn command_for<'a>(asked: Words<'a>) -> Command<'a>
    requires { IsWithin (asked_by asked) }
    ensures command { shown result ≡ command_for (asked_by asked.entry) }
    ensures scaled { IsScaled (shown result) }
    ensures bounded { IsTaskBounded result.task }
{
    match asked {
        Words::Adapt {
            base,
            out,
            workers,
            ops,
            turns,
            scale,
        } => Command {
            task: Task::Adapt {
                workers,
                ops,
                turns,
            },
            stems: Stems { base, out },
            scale,
        },
        Words::Replay { base, out, scale } => Command {
            task: Task::Replay,
            stems: Stems { base, out },
            scale,
        },
        Words::Check { base, scale } => Command {
            task: Task::Check,
            stems: Stems { base, out: base },
            scale,
        },
        Words::Chunks { base, scale } => Command {
            task: Task::Chunks,
            stems: Stems { base, out: base },
            scale,
        },
        Words::Trace { base, file, scale } => Command {
            task: Task::Trace,
            stems: Stems { base, out: file },
            scale,
        },
        Words::Demo { cells } => Command {
            task: Task::Demo { cells },
            stems: Stems { base: "", out: "" },
            scale: 1,
        },
    }
}
