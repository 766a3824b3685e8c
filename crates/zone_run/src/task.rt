//! What the words of a run ask.
ghost use Rattle.std.specs.Prelude.{◌≡◌, Option, option_map};
ghost use Rattle.zone_run.specs.Tasks.{task_at, task_of};

use crate::program::ZoneProgram;
use crate::respond::respond;
use std::alloc::{AllocError, Global};
use zone_line::LineParser;
use zone_source::{FileTask, Response};

/// A file, the name of a zone, and what is asked of the zone.
#[derive(Drop)]
pub(crate) struct Task<'w, P> {
    pub(crate) file: &'w str,
    pub(crate) zone: &'w str,
    pub(crate) program: P,
}

impl<P: ZoneProgram> FileTask for Task<'_, P> {
    ghost use Rattle.zone_run.specs.{Causes.{Cause}, Ends.{work}, Tasks.{Task as ZoneTask, task_at}};

    ghost Asked = { ZoneTask };

    ghost Cause = { Cause };

    ghost work = { work P.Zone.read P.label };

    ghost asked = { λ task. task_at task.file.now task.zone.now (P.asked task.program) };

    fn file(&self) -> &str {
        self.file
    }

    fn respond(
        &self,
        alloc: Global,
        parser: &LineParser,
        source: &[u8],
    ) -> Result<Response, AllocError> {
        respond(alloc, parser, self, source)
    }
}

/// Reads FILE, NAME and the program's own words.
pub(crate) fn read_task<P: ZoneProgram>(words: &[String]) -> Option<Task<'_, P>>
    ensures { option_map (λ task. task_at task.file.now task.zone.now (P.asked task.program)) result ≡ task_of P.form words.now }
{
    let [file, zone, words @ ..] = words else {
        return None;
    };
    match P::read(words) {
        Some(program) => Some(Task {
            file: file.as_str(),
            zone: zone.as_str(),
            program,
        }),
        None => None,
    }
}
