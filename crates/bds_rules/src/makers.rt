//! Which rule makes a file.
ghost use Rattle.std.specs.Prelude.{◌≡◌, ◌≤◌, length, Some, None, MatchOption};
ghost use Rattle.bds_value.specs.declared.TheConstants.{MAX_RULES};
ghost use Rattle.bds_rules.specs.Indexes.{AreMakers};
ghost use Rattle.bds_rules.specs.Makers.{maker, made_already};

use crate::indexes::FileNumbers;
use crate::rule::Rule;
use bds_value::ByteText;

/// The number of a rule, which is there.
fn number(rules: &[Rule], n: usize) -> u32
    requires few { length rules.now ≤ MAX_RULES }
    requires there { n ≤ length rules.now }
    ensures { result ≡ n }
{
    n as u32
}

/// The least rule that makes a file.
pub(crate) fn maker(rules: &[Rule], makers: &FileNumbers, file: &[u8]) -> Option<u32>
    requires few { length rules.now ≤ MAX_RULES }
    requires known { AreMakers rules.now makers.now.entries }
    ensures { result ≡ maker rules.now file.now }
{
    match makers.get(file) {
        Some(n) => Some(number(rules, *n)),
        None => None,
    }
}

/// The first of these files that a rule makes already, with the rule.
pub(crate) fn made_already<'a>(
    rules: &[Rule],
    makers: &FileNumbers,
    files: &'a [ByteText],
) -> Option<(&'a ByteText, u32)>
    requires few { length rules.now ≤ MAX_RULES }
    requires known { AreMakers rules.now makers.now.entries }
    ensures { MatchOption result (made_already rules.now files.now ≡ None) (λ p. made_already rules.now files.now ≡ Some (p.0.now, p.1)) }
{
    for file in files {
        if let Some(n) = maker(rules, makers, file.as_slice()) {
            return Some((file, n));
        }
    }
    None
}
