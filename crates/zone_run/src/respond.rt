//! The bytes that a run over a source is to write.
ghost use Rattle.std.specs.Prelude.{◌≤◌, length, IfOk};
ghost use Rattle.zone_run.specs.{Causes.{cause}, Due.{due_bytes, zone_line}, Responses.{cause_told}, Tasks.{task_at}};
ghost use Rattle.zone_source.specs.Responses.{IsLineOf, IsResponse};

use crate::found::{FindFault, FoundZone};
use crate::line::cause_line;
use crate::program::{Refusal, ZoneProgram};
use crate::task::Task;
use std::alloc::{AllocError, Global};
use tz_lookup::ZoneFault;
use zone_line::LineParser;
use zone_source::{LIMIT, Response, read_table, source_fault_bytes};

/// What is due for the task over a source.
pub(crate) fn respond<P: ZoneProgram>(
    alloc: Global,
    parser: &LineParser,
    task: &Task<'_, P>,
    source: &[u8],
) -> Result<Response, AllocError>
    requires { length source.now ≤ LIMIT }
    ensures { IsResponse
        (cause P.Zone.read (task_at task.now.file.now task.now.zone.now (P.asked task.now.program)) source.now)
        (due_bytes P.Zone.read P.label (task_at task.now.file.now task.now.zone.now (P.asked task.now.program)) source.now) result }
{
    let table = match read_table(alloc, parser, source) {
        Ok(table) => table,
        Err(error) => return Ok(Response::Fault(source_fault_bytes(alloc, &error)?)),
    };
    let zone = match P::Zone::find(alloc, &table, task.zone) {
        Ok(zone) => zone,
        Err(fault) => return Ok(Response::Fault(zone_fault(alloc, P::label(), fault)?)),
    };
    match task.program.answer(alloc, &zone) {
        Ok(bytes) => Ok(Response::Answer(bytes)),
        Err(Refusal::Cause(why)) => Ok(Response::Fault(cause_line(alloc, P::label(), "", why)?)),
        Err(Refusal::NoMemory) => Err(AllocError),
    }
}

/// The line that tells why a zone can't be asked.
fn zone_fault(alloc: Global, label: &str, fault: FindFault) -> Result<Vec<u8>, AllocError>
    ensures { IfOk result (λ line. IsLineOf (zone_line label.now) (cause_told fault) line.items) }
{
    match fault {
        FindFault::Zone(ZoneFault::UnknownZone) => cause_line(alloc, label, "", "unknown zone"),
        FindFault::Zone(ZoneFault::Schedule(fault)) => {
            cause_line(alloc, label, "schedule ", fault.name())
        }
        FindFault::Zone(ZoneFault::OffsetRange) => cause_line(alloc, label, "", "offset range"),
        FindFault::Zone(ZoneFault::NoMemory) => Err(AllocError),
        FindFault::RulesEnd => cause_line(alloc, label, "", "rules end"),
    }
}
