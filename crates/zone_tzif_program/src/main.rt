//! `zone_tzif FILE NAME`: writes the zone as a TZif file to standard output.
#![tactic(auto)]

use zone_tzif::{Started, start_tzif};

fn main(rt: HostRuntime) -> Started {
    start_tzif(rt)
}
