//! Places in texts and lists as numbers of the language.
ghost use Rattle.std.specs.Prelude.{◌≡◌};
ghost use Rattle.bds_lib.specs.Places.{place_within, place_below};
ghost use Rattle.bds_lib.specs.Results.{counted};
ghost use Rattle.bds_lib.specs.Searching.{place_number};

/// The place that a number names, where it is one from `low` to `high`.
pub fn place_within(low: usize, high: usize, index: i64) -> Option<usize>
    ensures { result ≡ place_within low high index }
{
    match usize::try_from(index) {
        Ok(at) => if low <= at && at <= high {
            Some(at)
        } else {
            None
        },
        Err(_) => None,
    }
}

/// The place that a number names, where it is below an end.
pub fn place_below(end: usize, index: i64) -> Option<usize>
    ensures { result ≡ place_below end index }
{
    match usize::try_from(index) {
        Ok(at) => if at < end { Some(at) } else { None },
        Err(_) => None,
    }
}

/// A count as a number with a sign.
pub fn counted(count: usize) -> i64
    ensures { result ≡ counted count }
{
    match i64::try_from(count) {
        Ok(number) => number,
        Err(_) => i64::MAX,
    }
}

/// A place as a number, or -1 where there is none.
pub fn place_number(place: Option<usize>) -> i64
    ensures { result ≡ place_number place }
{
    match place {
        Some(at) => counted(at),
        None => -1,
    }
}
