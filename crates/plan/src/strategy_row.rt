// Reads the row of a strategy, with up to two limiters over it.
ghost use Rattle.std.specs.Prelude.{◌≡◌};
ghost use Rattle.plan.specs.Fields.{fields_left};
ghost use Rattle.plan.specs.Strategies.{base_as, strategy_of, limited_of, twice_of};

use crate::fault::RowFault;
use crate::fields::Fields;
use crate::filling::fill_up;
use crate::row::{Base, Limits, StrategyRow};
use crate::value::{expect_end, next_value};
use crate::words::{BaseWord, StrategyWord};

// Reads the strategy of this name from the fields after the name.
fn read_base(fields: &mut Fields<'_>, word: BaseWord) -> Result<Base, RowFault>
    ensures { result ≡ base_as word (fields_left fields.old) }
{
    match word {
        BaseWord::Alinea => {
            expect_end(fields)?;
            Ok(Base::Alinea)
        }
        BaseWord::Plan => {
            let mut cycles = [0; 24];
            fill_up(fields, &mut cycles)?;
            Ok(Base::Hourly(cycles))
        }
    }
}

// Reads what stands after a second `limiter`, below one with the step `outer`.
fn read_twice(fields: &mut Fields<'_>, outer: u32) -> Result<StrategyRow, RowFault>
    ensures { result ≡ twice_of outer (fields_left fields.old) }
{
    let inner = next_value(fields)?;
    let word = next_value(fields)?;
    let base = read_base(fields, word)?;
    Ok(StrategyRow {
        limits: Limits::Twice { outer, inner },
        base,
    })
}

// Reads what stands after the first `limiter`.
fn read_limited(fields: &mut Fields<'_>) -> Result<StrategyRow, RowFault>
    ensures { result ≡ limited_of (fields_left fields.old) }
{
    let step = next_value(fields)?;
    match next_value(fields)? {
        StrategyWord::Limiter => read_twice(fields, step),
        StrategyWord::Of(word) => {
            let base = read_base(fields, word)?;
            Ok(StrategyRow {
                limits: Limits::Once(step),
                base,
            })
        }
    }
}

/// Reads a strategy, and the limiters over it, from the fields that are left.
pub(crate) fn read_strategy(fields: &mut Fields<'_>) -> Result<StrategyRow, RowFault>
    ensures { result ≡ strategy_of (fields_left fields.old) }
{
    match next_value(fields)? {
        StrategyWord::Limiter => read_limited(fields),
        StrategyWord::Of(word) => {
            let base = read_base(fields, word)?;
            Ok(StrategyRow {
                limits: Limits::Unlimited,
                base,
            })
        }
    }
}
