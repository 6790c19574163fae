//! The order of texts by bytes.
ghost use Rattle.std.specs.Prelude.{◌≡◌, Some, refl};
ghost use Rattle.std.specs.Str.{bytes_eq};
ghost use Rattle.std.specs.Cmp.{partial_equiv_from_equiv};
ghost use Rattle.std.specs.Cmp.Lexicographic.{nat_list_eq_equiv, nat_list_cmp_total, texts_po, texts_ties};
ghost use Rattle.bds_value.specs.Order.{is_before, text_cmp};

use crate::value::ByteText;
use std::cmp::Ordering;

impl PartialEq for ByteText {
    ghost eq = { bytes_eq };

    ghost laws = { partial_equiv_from_equiv nat_list_eq_equiv };

    fn eq(&self, other: &ByteText) -> bool {
        self.as_slice() == other.as_slice()
    }
}

impl Eq for ByteText {
    ghost laws = { nat_list_eq_equiv };
}

impl PartialOrd for ByteText {
    ghost partial_cmp = { λ a b. Some (text_cmp a b) };

    ghost laws = { texts_po };

    fn partial_cmp(&self, other: &ByteText) -> Option<Ordering> {
        Some(self.cmp(other))
    }
}

impl Ord for ByteText {
    ghost cmp = { text_cmp };

    ghost total = { nat_list_cmp_total };

    ghost matches_partial_cmp = { λ a b. refl };

    ghost matches_eq = { texts_ties };

    fn cmp(&self, other: &ByteText) -> Ordering {
        order(self.as_slice(), other.as_slice())
    }
}

/// The order of texts, which are short: the first byte in which they differ decides, and else their lengths do.
fn order(a: &[u8], b: &[u8]) -> Ordering
    ensures { result ≡ text_cmp a.now b.now }
{
    let (mut a, mut b) = (a, b);
    while let [x, later @ ..] = a {
        let [y, others @ ..] = b else {
            return Ordering::Greater;
        };
        let found = x.cmp(y);
        if found.is_ne() {
            return found;
        }
        a = later;
        b = others;
    }
    if b.is_empty() {
        Ordering::Equal
    } else {
        Ordering::Less
    }
}

/// Whether a text comes before another in the order of bytes.
pub fn is_before(a: &ByteText, b: &ByteText) -> bool
    ensures { result ≡ is_before a.now b.now }
{
    a.cmp(b).is_lt()
}
