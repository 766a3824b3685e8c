//! Whether changes rise.
ghost use Rattle.std.specs.Prelude.{◌≡◌, map, int_lt};
ghost use Rattle.zone_tzif_core.specs.Zones.{go_up};

/// Whether a time is before another.
fn is_before<T>(a: &(i64, T), b: &(i64, T)) -> bool
    ensures { result ≡ int_lt a.now.0 b.now.0 }
{
    a.0 < b.0
}

/// Whether the times strictly rise.
pub fn do_rise<T>(shifts: &[(i64, T)]) -> bool
    ensures { result ≡ go_up (map (λ shift. shift.0) shifts.now) }
{
    for i in 1..shifts.len() {
        let rises = is_before(&shifts[i - 1], &shifts[i]);
        if !rises {
            return false;
        }
    }
    true
}
