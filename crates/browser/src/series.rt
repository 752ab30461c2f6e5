// The series of queries (RFC 6762, 5.2): when its next query is due, and how the gaps grow.
ghost use Rattle.std.specs.Prelude.{◌≡◌};
ghost use Rattle.browser.specs.service.Sound.{Sound};
ghost use Rattle.browser.specs.series.Series.{gap_after, series_at, counted};

use crate::Browser;

// The longest gap: 60 minutes.
pub const LONGEST_GAP: u64 = 3600000;

// The gap behind the k-th query, in milliseconds.
// By a list, as the definition has it: an arm for 0 and 1 together was tried, and left the proof no fact.
pub(crate) fn gap_after(k: u64) -> u64
    ensures { result ≡ gap_after k }
{
    match k {
        0 => 1000,
        1 => 1000,
        2 => 2000,
        3 => 4000,
        4 => 8000,
        5 => 16000,
        6 => 32000,
        7 => 64000,
        8 => 128000,
        9 => 256000,
        10 => 512000,
        11 => 1024000,
        12 => 2048000,
        _ => LONGEST_GAP,
    }
}

// When the next query of the series is due.
pub(crate) fn series_at(b: Browser) -> u64
    requires { Sound b }
    ensures { result ≡ series_at b }
{
    if b.count == 0 {
        return b.series + b.draw;
    }
    b.series + gap_after(b.count)
}

// How many were sent, with one more.
pub(crate) fn count_one(k: u64) -> u64
    ensures { result ≡ counted k }
{
    if k < 13 { k + 1 } else { k }
}
