// Metering: the reference clock and the light. (docs/RULES.md, "Metering")
ghost use Rattle.std.specs.Prelude.{◌≡◌, ◌+◌, false, if◌then◌else◌, ◌&&◌, nat_lt};
ghost use Rattle.control.specs.Phases.{colour_of_light};
ghost use Rattle.control.specs.declared.meter.Light.TheVariants.{Red};
ghost use Rattle.control.specs.declared.stage.Stage.TheVariants.{Metering};
ghost use Rattle.control.specs.Metering.{started, runs, clocked, metered};
ghost use Rattle.control.specs.Metering.{lit, red_stays, opening, red_step, light_step};
ghost use Rattle.control.specs.Figures.{RM};

use crate::stage::{Conditions, Stage};
use lamps::Colour;
use sheet::Sheet;

/// The light of metering. A window is window flash and then window amber: it lets one vehicle go.
/// (docs/RULES.md, "Metering")
#[derive(Clone, Copy)]
pub enum Light {
    /// Window flash: flashing amber for JC seconds.
    Flash,
    /// Window amber: fixed amber for JF seconds.
    Amber,
    /// Metered red, for RM seconds at least.
    Red,
}

/// What a metering station keeps: its light, the running reference cycle and the arrears. A reference cycle is a
/// stretch of metering time in which one vehicle is due; none runs only before the first second of metering.
/// (docs/RULES.md, "Metering")
#[derive(Clone, Copy)]
pub struct Meter {
    /// The light of the newest second.
    pub light: Light,
    /// Seconds of this light shown in a row, the newest included; in red this is the red age. It stops at
    /// 4,294,967,295.
    pub age: u32,
    /// The length of the running reference cycle in seconds, fixed when it began; 0 where none runs.
    pub length: u32,
    /// The seconds that the running reference cycle has lasted, the newest included; 0 where none runs.
    pub lasted: u32,
    /// Arrears: the reference cycles begun whose vehicle has not been let go, 60,000 at most.
    pub arrears: u32,
}

impl Light {
    /// The colour that the light orders. (docs/RULES.md, "Succession")
    pub fn colour(self) -> Colour
        ensures { result ≡ colour_of_light self }
    {
        match self {
            Light::Flash => Colour::FlashingAmber,
            Light::Amber => Colour::FixedAmber,
            Light::Red => Colour::Red,
        }
    }
}

// The most arrears that are kept.
const MOST_ARREARS: u32 = 60_000;

impl Meter {
    /// Metering before its first second: red of age 0, no arrears, no reference cycle running. Seconds of opening red
    /// do not count for the red age. (docs/RULES.md, "Metering")
    pub fn start() -> Meter
        ensures { result ≡ started }
    {
        Meter {
            light: Light::Red,
            age: 0,
            length: 0,
            lasted: 0,
            arrears: 0,
        }
    }

    /// Whether the running reference cycle goes on in the next second; otherwise one begins there.
    pub fn runs(self) -> bool
        ensures { result ≡ runs self }
    {
        self.lasted < self.length
    }

    /// One second of the reference clock: the running reference cycle goes on, or one of `length` seconds begins and
    /// arrears grow by 1, to 60,000 at most. The light stays. (docs/RULES.md, "Metering")
    pub fn clocked(self, length: u32) -> Meter
        ensures { result ≡ clocked length self }
    {
        if self.runs() {
            Meter {
                lasted: self.lasted + 1,
                ..self
            }
        } else {
            Meter {
                length,
                lasted: 1,
                arrears: self.arrears.saturating_add(1).min(MOST_ARREARS),
                ..self
            }
        }
    }

    // One second more of a light that lasts so many seconds, or else the first second of the next light.
    fn lasting(self, light: Light, seconds: u32, next: Light) -> Stage
        ensures { result ≡ Metering (if nat_lt self.age seconds then lit light (self.age + 1) self.arrears self else
            lit next 1 self.arrears self) }
    {
        if self.age < seconds {
            Stage::Metering(Meter {
                light,
                age: self.age + 1,
                ..self
            })
        } else {
            Stage::Metering(Meter {
                light: next,
                age: 1,
                ..self
            })
        }
    }

    // One second more of red.
    fn red_stays(self) -> Stage
        ensures { result ≡ red_stays self }
    {
        Stage::Metering(Meter {
            light: Light::Red,
            age: self.age.saturating_add(1),
            ..self
        })
    }

    // An opening: arrears fall by one, and a window flash begins.
    fn opening(self) -> Stage
        ensures { result ≡ opening self }
    {
        Stage::Metering(Meter {
            light: Light::Flash,
            age: 1,
            arrears: self.arrears.saturating_sub(1),
            ..self
        })
    }

    // Whether the red is younger than RM.
    fn is_young(self, sheet: &Sheet) -> bool
        ensures { result ≡ nat_lt self.age (RM sheet.now) }
    {
        self.age < sheet.figures().minimum_red
    }

    // Whether a vehicle is let go: one stands at the line, and one is in arrears.
    fn may_go(self, presence: bool) -> bool
        ensures { result ≡ (presence && nat_lt 0 self.arrears) }
    {
        presence && self.arrears > 0
    }

    // The second after red of age RM or more; what is asked first goes first.
    fn after_old_red(self, conditions: Conditions) -> Stage
        ensures { result ≡ red_step false conditions.wanted conditions.full
            (conditions.presence && nat_lt 0 self.arrears) self }
    {
        if !conditions.wanted {
            Stage::Closing(1)
        } else if conditions.full {
            Stage::Draining
        } else if self.may_go(conditions.presence) {
            self.opening()
        } else {
            self.red_stays()
        }
    }

    // The second after red of any age.
    fn after_red(self, sheet: &Sheet, conditions: Conditions) -> Stage
        ensures { result ≡ light_step sheet.now conditions Red self }
    {
        if self.is_young(sheet) {
            self.red_stays()
        } else {
            self.after_old_red(conditions)
        }
    }

    // One second of the light; the clock stays.
    fn after_light(self, sheet: &Sheet, conditions: Conditions) -> Stage
        ensures { result ≡ light_step sheet.now conditions self.light self }
    {
        let figures = sheet.figures();
        match self.light {
            Light::Flash => self.lasting(Light::Flash, figures.window_flash, Light::Amber),
            Light::Amber => self.lasting(Light::Amber, figures.window_amber, Light::Red),
            Light::Red => self.after_red(sheet, conditions),
        }
    }

    /// What one second makes of metering: first the reference clock, then the light. It may leave metering for closing
    /// or draining. (docs/RULES.md, "Metering")
    pub fn after(self, sheet: &Sheet, conditions: Conditions) -> Stage
        ensures { result ≡ metered sheet.now conditions self }
    {
        self.clocked(conditions.length)
            .after_light(sheet, conditions)
    }
}
