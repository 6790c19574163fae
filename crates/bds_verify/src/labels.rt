//! Labels of a function by place.
ghost use Rattle.std.specs.Prelude.{◌≡◌, true};
ghost use Rattle.std.specs.Option.{option_copied};
ghost use Rattle.bds_verify.specs.Verified.{label_at};
ghost use Rattle.bds_verify.specs.Whole.{rises};

use bds_code::Shape;

/// The list that is declared at a place, found by halves.
pub(crate) fn label(labels: &[(u32, Shape)], place: u32) -> Option<&Shape>
    requires { rises labels.now ≡ true }
    ensures { option_copied result ≡ label_at labels.now place }
{
    let mut left = labels;
    while !left.is_empty() {
        let half = left.len() / 2;
        let middle = &left[half];
        if middle.0 == place {
            return Some(&middle.1);
        }
        if place < middle.0 {
            left = left.split_at(half).0;
        } else {
            left = left.split_at(half + 1).1;
        }
    }
    None
}
