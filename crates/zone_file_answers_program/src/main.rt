//! `zone_file_answers FILE`: answers the requests on standard input over the compiled zone file.
#![tactic(auto)]

use zone_file_answers::{Started, start};

fn main(rt: HostRuntime) -> Started {
    start(rt)
}
