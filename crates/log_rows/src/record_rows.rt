// The rows of period and alarm records.
ghost use Rattle.std.specs.Prelude.{Some};
ghost use Rattle.log_rows.specs.Whole.{record_text, alarm_text};

use crate::fields::OrDash;
use crate::words::phase_word;
use records::{AlarmRecord, PeriodRecord};
use std::fmt;

/// Writes the `period` row of a period that closed: flow in vehicles per period, occupancy in per mille, the
/// strategy's cycle in seconds (docs/RULES.md, "Records").
#[derive(Clone, Copy)]
pub struct PeriodRow(pub PeriodRecord);

impl fmt::Display for PeriodRow {
    ghost output = { λ x. Some (record_text x.0) };

    fn fmt<W: fmt::Write>(&self, f: &mut fmt::Formatter<W>) -> fmt::Result {
        let PeriodRecord {
            number,
            minute,
            measure,
            cycle,
            openings,
        } = self.0;
        let flow = OrDash(measure.map(|m| m.flow));
        let occupancy = OrDash(measure.map(|m| m.occupancy_permille));
        write!(
            f,
            "period;{number};{minute};{flow};{occupancy};{cycle};{openings}"
        )
    }
}

/// Writes the `alarm` row of a trip; code and lamp are written by their numbers (docs/RULES.md, "Records").
#[derive(Clone, Copy)]
pub struct AlarmRow(pub AlarmRecord);

impl fmt::Display for AlarmRow {
    ghost output = { λ x. Some (alarm_text x.0) };

    fn fmt<W: fmt::Write>(&self, f: &mut fmt::Formatter<W>) -> fmt::Result {
        let code = self.0.code.number();
        let lamp = self.0.lamp.number();
        let phase = phase_word(self.0.phase);
        write!(f, "alarm;{};{code};{lamp};{phase}", self.0.second)
    }
}
