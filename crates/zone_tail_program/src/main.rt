//! `zone_tail FILE NAME`: writes the POSIX TZ string that carries the zone on, after the second from which on it says the same, or
//! `all`.
#![tactic(auto)]

use zone_tail::{Started, start_tail};

fn main(rt: HostRuntime) -> Started {
    start_tail(rt)
}
