//! Requests and logs over an exchange.
ghost use Rattle.std.specs.Prelude.{◌≡◌, ◌≤◌};
ghost use Rattle.zone_words.specs.{Filters.{replied}, Fronts.{fronts_rewritten}, Logs.{log_front}, Runs.{Ends}};
ghost use Rattle.zone_command.specs.{LogTexts.{field_of, log_text}, Streams.{stream_replies}};

use crate::log_texts::ZoneTexts;
use crate::source::ZoneSource;
use crate::stream::SourceStream;
use std::alloc::Global;
use zone_outside::Exchange;
use zone_texts::ReplyZone;
use zone_words::{AnswerForm, StreamEnd, run_log, run_stream};

/// Answers requests of a line each over a source, as they come: `at NAME TIME`, `local NAME TEXT` and `convert FROM TO TEXT`, each by one
/// line; a fault by `? ` and its words. What each end says is told by `Ends`.
pub fn serve_stream<S: ZoneSource, X: Exchange>(
    alloc: Global,
    source: &S,
    form: AnswerForm,
    exchange: &mut X,
) -> StreamEnd
    ensures { Ends (replied (stream_replies (S.found source.now) form)) (X.seen exchange.old) (X.seen exchange.new) result }
{
    run_stream(alloc, SourceStream::new(alloc, source, form), exchange)
}

/// The field of a log: 0 is the front of the line.
fn field_of(field: Option<u16>) -> usize
    ensures field { result ≡ field_of field }
    ensures bound { result ≤ 4096 }
{
    match field {
        Some(number) => usize::from(number).min(4096),
        None => 0,
    }
}

/// Rewrites a log as it comes, with what clocks of a zone show in place of the time at the front of each line, or in the field of that
/// number, from 1 on. What each end says is told by `Ends`.
pub fn serve_log<Z: ReplyZone, X: Exchange>(
    alloc: Global,
    zone: &Z,
    form: AnswerForm,
    field: Option<u16>,
    exchange: &mut X,
) -> StreamEnd
    ensures { Ends (fronts_rewritten (log_front (field_of field) (log_text form (Z.view zone.now)))) (X.seen exchange.old) (X.seen exchange.new) result }
{
    let texts = ZoneTexts::new(alloc, zone, form);
    run_log(alloc, texts, field_of(field), exchange)
}
