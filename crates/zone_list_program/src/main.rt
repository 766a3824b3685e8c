//! `zone_list FILE NAME FROM TO`: writes a line for each change of the zone from FROM on and before TO, both in seconds from
//! 1970-01-01 00:00:00 UTC.
#![tactic(auto)]

use zone_list::{Started, start_list};

fn main(rt: HostRuntime) -> Started {
    start_list(rt)
}
