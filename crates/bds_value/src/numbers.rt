//! That the numbers of values have 64 bits.
ghost use Rattle.std.specs.Prelude.{FitsSigned};
ghost use Rattle.std.specs.Int.{w64};
ghost use Rattle.std.specs.List.{All};
ghost use Rattle.bds_value.specs.Fields.{NumbersFit, PairNumbersFit};

use crate::value::{Entries, Items, Value};

fn number_fits(_number: i64)
    ensures { FitsSigned w64 _number }
{}

/// Each number in a value has 64 bits: a law, which only looks at the value.
#[cycle(fitting)]
#[tactic(auto, using(crate::proofs::NumberFits::fit_rules))]
pub fn numbers_fit(value: &Value)
    ensures { NumbersFit value.now }
{
    match value {
        Value::Int(number) => number_fits(*number),
        Value::List(_, items) => items_fit(items.get()),
        Value::Map(_, pairs) => pairs_fit(pairs.get()),
        Value::Bool(_) | Value::Text(_) => {}
    }
}

#[cycle(fitting)]
fn items_fit(items: &Items)
    ensures { All NumbersFit items.now }
{
    for item in items.as_slice() {
        numbers_fit(item);
    }
}

#[cycle(fitting)]
fn pairs_fit(pairs: &Entries)
    ensures { All PairNumbersFit pairs.now }
{
    for (_, value) in pairs.iter() {
        numbers_fit(value);
    }
}
