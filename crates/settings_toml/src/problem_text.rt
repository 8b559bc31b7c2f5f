//! What is said of a settings file that holds no settings.

ghost use Rattle.std.specs.Prelude.{◌≡◌, IfOk, string_bytes};
ghost use Rattle.settings_toml.specs.SettingsText.{problem_line};

use crate::settings_file::SettingsProblem;
use std::alloc::{AllocError, Global};

/// The line for a settings file that holds no settings.
pub fn problem_line(alloc: Global, problem: &SettingsProblem) -> Result<String, AllocError>
    ensures { IfOk result (λ text. string_bytes text ≡ problem_line problem.now) }
{
    match problem {
        SettingsProblem::NoMemory => String::from_str(alloc, "no memory\n"),
        SettingsProblem::File => String::from_str(alloc, "settings: toml\n"),
        SettingsProblem::Toml => String::from_str(alloc, "settings: toml\n"),
        SettingsProblem::Top(key) => format!(in alloc; "settings: {key}\n"),
        SettingsProblem::Endpoint(number, key) => format!(in alloc;
            "settings: endpoint {number} {key}\n"
        ),
        SettingsProblem::Leg(number, key) => format!(in alloc; "settings: leg {number} {key}\n"),
        SettingsProblem::SameSsrc => String::from_str(alloc, "settings: ssrc\n"),
    }
}
