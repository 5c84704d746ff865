// The faults that readers find, as reasons to stop: one function a reader.
ghost use Rattle.std.specs.Prelude.{◌≡◌};
ghost use Rattle.pf_say.specs.declared.fault.Fault.TheVariants.{Line};
ghost use Rattle.pf_cmd.specs.Faults.{most_in, tri_stop, build_stop, table_stop, jour_stop, trace_stop};

use pf_journal::JourErr;
use pf_mesh::BuildErr;
use pf_say::{Fault, LineFault, Place, Stop, Trouble};
use pf_tables::TableErr;
use pf_trace::TraceErr;
use tri_files::TriErr;

// That memory ran out.
const NO_MEMORY: Stop = Stop::Device {
    trouble: Trouble::Memory,
};

/// A file of nodes or triangles is refused.
pub(crate) fn tri_stop(place: Place, fault: TriErr) -> Stop
    ensures { result ≡ tri_stop place fault }
{
    let fault = match fault {
        TriErr::Short { line } => at(line, LineFault::Short),
        TriErr::Word { line, column } => at(line, LineFault::Word { column }),
        TriErr::Dimension { found } => Fault::Dimension { found },
        TriErr::Order { found } => Fault::Order { found },
        TriErr::Number {
            line,
            expected,
            found,
        } => at(line, LineFault::Number { expected, found }),
        TriErr::Range { line } => at(line, LineFault::Range),
        TriErr::TooMany { count } => Fault::TooMany {
            count,
            most: most_in(place),
        },
        TriErr::Extra { line } => at(line, LineFault::Extra),
        TriErr::Memory => return NO_MEMORY,
    };
    Stop::Input { place, fault }
}

// The fault of a line.
fn at(line: u32, fault: LineFault) -> Fault
    ensures { result ≡ Line line fault }
{
    Fault::Line { line, fault }
}

// How many rows a file of nodes or triangles may say.
fn most_in(place: Place) -> u32
    ensures { result ≡ most_in place }
{
    match place {
        Place::Node => 1_048_576,
        _ => 2_097_152,
    }
}

/// The triangles make no mesh.
pub(crate) fn build_stop(fault: BuildErr) -> Stop
    ensures { result ≡ build_stop fault }
{
    let fault = match fault {
        BuildErr::BadNode { tri, node } => Fault::NoNode { tri, node },
        BuildErr::Flat { tri } => Fault::Flat { tri },
        BuildErr::EdgeTwice { a, b } => Fault::EdgeTwice { a, b },
        BuildErr::Memory => return NO_MEMORY,
    };
    Stop::Input {
        place: Place::Ele,
        fault,
    }
}

/// A partition or a size table is refused.
pub(crate) fn table_stop(place: Place, fault: TableErr) -> Stop
    ensures { result ≡ table_stop place fault }
{
    let fault = match fault {
        TableErr::Short { line } => at(line, LineFault::Short),
        TableErr::Word { line, column } => at(line, LineFault::Word { column }),
        TableErr::Chunk { line, found } => at(line, LineFault::Chunk { found }),
        TableErr::Band { line } => at(line, LineFault::Band),
        TableErr::NoDefault => Fault::NoDefault,
        TableErr::Extra { line } => at(line, LineFault::Extra),
        TableErr::Memory => return NO_MEMORY,
    };
    Stop::Input { place, fault }
}

/// A journal is refused.
pub(crate) fn jour_stop(fault: JourErr) -> Stop
    ensures { result ≡ jour_stop fault }
{
    let fault = match fault {
        JourErr::Head => Fault::Head,
        JourErr::Short { line } => at(line, LineFault::Short),
        JourErr::Word { line, column } => at(line, LineFault::Word { column }),
        JourErr::Ticket {
            line,
            expected,
            found,
        } => at(line, LineFault::Ticket { expected, found }),
        JourErr::Extra { line } => at(line, LineFault::Extra),
        JourErr::Memory => return NO_MEMORY,
    };
    Stop::Input {
        place: Place::Journal,
        fault,
    }
}

/// A trace is refused.
pub(crate) fn trace_stop(fault: TraceErr) -> Stop
    ensures { result ≡ trace_stop fault }
{
    let fault = match fault {
        TraceErr::Line { line } => at(line, LineFault::Event),
        TraceErr::Memory => return NO_MEMORY,
    };
    Stop::Input {
        place: Place::Trace,
        fault,
    }
}
