//! Known moments as text.

use operations::time_text;
use std::test::Fail;

/// The beginning of 1970, a leap day, the ends of two years, one without a leap day, and the last that the calendar has.
#[test]
fn known_moments(rt: HostRuntime) -> Result<(), Fail> {
    let moments = [
        (0, "1970-01-01T00:00:00Z"),
        (951_827_696, "2000-02-29T12:34:56Z"),
        (1_704_067_199, "2023-12-31T23:59:59Z"),
        (1_704_067_200, "2024-01-01T00:00:00Z"),
        (1_795_727_525, "2026-11-26T21:12:05Z"),
        (4_107_542_399, "2100-02-28T23:59:59Z"),
        (4_107_542_400, "2100-03-01T00:00:00Z"),
        (300_000_000_000, ""),
        (18_446_744_073_709_551_615, ""),
    ];
    for (seconds, text) in moments {
        assert_eq!(rt; time_text(rt.alloc(), seconds)?.as_str(), text);
    }
    Ok(())
}
