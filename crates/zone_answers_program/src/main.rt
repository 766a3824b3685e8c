//! `zone_answers FILE`: answers the requests on standard input over the zones of the file.
//! `zone_answers --generate N`: answers over texts made from the number, from 1 to 1000, and writes a summary.
#![tactic(auto)]

use zone_answers::{Started, start};

fn main(rt: HostRuntime) -> Started {
    start(rt)
}
