//! Zones of a chart.
use crate::fault::ReplyFault;

/// What is due was added, or its fault is told.
pub(crate) type Replied = Result<(), ReplyFault>;

/// A zone of a chart.
#[derive(Drop)]
pub struct ChartZone<'a, Z> {
    /// Its name, as it was asked for.
    pub name: &'a str,
    /// The zone.
    pub zone: Z,
}
