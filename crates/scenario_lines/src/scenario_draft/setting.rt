//! The settings of a scenario.
ghost use Rattle.std.specs.Prelude.{◌≡◌};
ghost use Rattle.scenario_lines.specs.scenario_draft.Settings.{highest, none_given, is_given, with_given};

/// What a line of a setting sets.
#[derive(Clone, Copy)]
pub enum Setting {
    Life,
    Delay,
    Labels,
    System,
}

impl Setting {
    /// The highest value. The lowest one is 1.
    pub fn highest(self) -> u64
        ensures { result ≡ highest self }
    {
        match self {
            Setting::Life | Setting::Delay => 1000,
            Setting::Labels => 65536,
            Setting::System => 65535,
        }
    }
}

/// Which settings were given.
#[derive(Clone, Copy)]
pub struct Given {
    life: bool,
    delay: bool,
    labels: bool,
    system: bool,
}

impl Given {
    pub fn none() -> Self
        ensures { result ≡ none_given }
    {
        Given {
            life: false,
            delay: false,
            labels: false,
            system: false,
        }
    }

    pub fn has(self, setting: Setting) -> bool
        ensures { result ≡ is_given self setting }
    {
        match setting {
            Setting::Life => self.life,
            Setting::Delay => self.delay,
            Setting::Labels => self.labels,
            Setting::System => self.system,
        }
    }

    /// The same with one more.
    pub fn with(self, setting: Setting) -> Self
        ensures { result ≡ with_given self setting }
    {
        match setting {
            Setting::Life => Given { life: true, ..self },
            Setting::Delay => Given {
                delay: true,
                ..self
            },
            Setting::Labels => Given {
                labels: true,
                ..self
            },
            Setting::System => Given {
                system: true,
                ..self
            },
        }
    }
}
