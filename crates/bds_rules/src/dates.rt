//! Whether files are out of date.
ghost use Rattle.std.specs.Prelude.{◌≡◌, not, int_lt};
ghost use Rattle.std.specs.List.{list_any};
ghost use Rattle.bds_rules.specs.OutOfDate.{is_lacking, is_newer, out_of_date};

use bds_value::{Stamp, Stamps};

/// A file is missing, or empty.
fn is_lacking(stamp: &Stamp) -> bool
    ensures { result ≡ is_lacking stamp.now }
{
    !stamp.there || stamp.size == 0
}

/// The first file is newer than the second.
fn is_newer(right: &Stamp, left: &Stamp) -> bool
    ensures { result ≡ is_newer right.now left.now }
{
    left.time < right.time
}

fn any_lacking(stamps: &[Stamp]) -> bool
    ensures { result ≡ list_any is_lacking stamps.now }
{
    for i in 0..stamps.len() {
        if is_lacking(&stamps[i]) {
            return true;
        }
    }
    false
}

fn any_missing(stamps: &[Stamp]) -> bool
    ensures { result ≡ list_any (λ s. not s.there) stamps.now }
{
    for i in 0..stamps.len() {
        if !stamps[i].there {
            return true;
        }
    }
    false
}

/// A file is newer than one of these.
fn is_newer_than_any(right: &Stamp, left: &[Stamp]) -> bool
    ensures { result ≡ list_any (is_newer right.now) left.now }
{
    for i in 0..left.len() {
        if is_newer(right, &left[i]) {
            return true;
        }
    }
    false
}

fn any_newer(left: &[Stamp], right: &[Stamp]) -> bool
    ensures { result ≡ list_any (λ r. list_any (is_newer r) left.now) right.now }
{
    for i in 0..right.len() {
        if is_newer_than_any(&right[i], left) {
            return true;
        }
    }
    false
}

/// Whether files are out of date against others, where a pending task makes one of them or none.
pub fn out_of_date(left: &Stamps, right: &Stamps, pending: bool) -> bool
    ensures { result ≡ out_of_date left.now right.now pending }
{
    let (left, right) = (left.as_slice(), right.as_slice());
    any_lacking(left) || any_missing(right) || any_newer(left, right) || pending
}
