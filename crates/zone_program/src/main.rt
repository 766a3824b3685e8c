//! `zone [OPTIONS] COMMAND ..`: local times, their instants and changes, for people and for other tools.
#![tactic(auto)]

use zone_command::{AnySource, OverSource, ZoneStarted, start};

fn main(rt: HostRuntime) -> ZoneStarted {
    start::<OverSource<AnySource>>(rt)
}
