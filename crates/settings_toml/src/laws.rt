//! Which keys people are told of. This function does nothing: its contract is the law.

ghost use Rattle.settings_toml.specs.SettingsFaults.{takes_endpoint, takes_leg, takes_top};
ghost use Rattle.settings_toml.specs.Wanted.{AreTheKeys, endpoint_rows, leg_rows, top_rows};

/// People are told of a key just if settings are read that have it, with some value.
pub fn keys_are_those_of_settings()
    ensures top { AreTheKeys takes_top top_rows }
    ensures endpoint { AreTheKeys takes_endpoint endpoint_rows }
    ensures leg { AreTheKeys takes_leg leg_rows }
{}
