//! `zone_alarm FILE NAME START TIME DAYS`: when a daily alarm rings in the zone NAME of the file, a line for each day.
#![tactic(auto)]

use zone_alarm::{Started, start_alarm};

fn main(rt: HostRuntime) -> Started {
    start_alarm(rt)
}
