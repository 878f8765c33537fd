ghost use Rattle.std.specs.Prelude.{◌≡◌};
ghost use Rattle.serde_json.specs.View.{view};
ghost use Rattle.profile_template.specs.Settings.{has_cap, is_new_enough, is_word};

use crate::version::Version;
use json_tree::text;
use serde_json::Value;

/// The settings for which a template is resolved.
#[derive(Clone, Copy)]
pub struct Settings<'a> {
    /// The capabilities of the container's bounding set, such as `CAP_SYS_ADMIN`.
    pub caps: &'a [&'a str],
    /// The architecture, as templates name it: `amd64`.
    pub arch: &'a str,
    /// The kernel's version. `None` is a kernel newer than any required version.
    pub kernel: Option<Version>,
}

/// Whether a text of a template is this word.
pub(crate) fn is_word(word: &str, item: &Value) -> bool
    ensures { result ≡ is_word word.now (view item.now) }
{
    match text(item) {
        Some(found) => found == word,
        None => false,
    }
}

/// Whether a text of a template is one of the capabilities.
pub(crate) fn has_cap(settings: &Settings<'_>, item: &Value) -> bool
    ensures { result ≡ has_cap settings.now (view item.now) }
{
    settings.caps.iter().any(|cap| is_word(cap, item))
}

/// Whether the kernel is at least as new as required. `otherwise` if no version is required.
pub(crate) fn is_new_enough(
    otherwise: bool,
    kernel: Option<Version>,
    least: Option<Version>,
) -> bool
    ensures { result ≡ is_new_enough otherwise kernel least }
{
    match (least, kernel) {
        (None, _) => otherwise,
        (Some(_), None) => true,
        (Some(least), Some(kernel)) => kernel.is_at_least(least),
    }
}
