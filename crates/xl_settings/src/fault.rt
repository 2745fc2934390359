use crate::{KeyName, SettingsRefusal};

/// Why no settings were read.
#[derive(Debug, Drop)]
pub enum SettingsFault {
    /// The bytes hold none.
    Refused(SettingsRefusal),
    /// A read of the source failed.
    Read,
    /// Memory ran out.
    OutOfMemory,
}

impl From<xl_base::OutOfMemory> for SettingsFault {
    ghost use Rattle.std.specs.Prelude.{◌≡◌};
    ghost use Rattle.xl_settings.specs.declared.fault.SettingsFault.TheVariants.{OutOfMemory};

    ghost from_gives = { λ _ fault. fault ≡ OutOfMemory };

    fn from(_: xl_base::OutOfMemory) -> Self {
        SettingsFault::OutOfMemory
    }
}

impl From<KeyName> for SettingsFault {
    ghost use Rattle.std.specs.Prelude.{◌≡◌};
    ghost use Rattle.xl_settings.specs.declared.fault.SettingsFault.TheVariants.{Refused};
    ghost use Rattle.xl_settings.specs.declared.refusal.SettingsRefusal.TheVariants.{Known};

    ghost from_gives = { λ name fault. fault ≡ Refused (Known name) };

    fn from(name: KeyName) -> Self {
        SettingsFault::Refused(SettingsRefusal::Known(name))
    }
}
