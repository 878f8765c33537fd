ghost use Rattle.std.specs.Prelude.{◌≡◌};

use oci_profile::Decision;
use profile_text::{NamedEntry, Texts};
use std::marker::Model;

/// The entries of a template, in order. `None` is an entry whose conditions are not met.
#[derive(Drop)]
pub struct TemplateEntries {
    entries: Vec<Option<NamedEntry>>,
}

impl Model for TemplateEntries {
    ghost use Rattle.std.specs.Prelude.{List, Option};
    ghost use Rattle.profile_text.specs.declared.named.NamedEntry.{NamedEntry};

    ghost Value = { List (Option NamedEntry) };

    ghost view = { λ e. e.entries.items };
}

impl TemplateEntries {
    ghost use Rattle.std.specs.Prelude.{◌≡◌};

    pub(crate) fn new(entries: Vec<Option<NamedEntry>>) -> TemplateEntries
        ensures { result ≡ entries.items }
    {
        TemplateEntries { entries }
    }

    /// The entries in order.
    pub fn as_slice(&self) -> &[Option<NamedEntry>]
        ensures { result.now ≡ self.now }
    {
        self.entries.as_slice()
    }

    /// The entries in order.
    pub(crate) fn into_vec(self) -> Vec<Option<NamedEntry>>
        ensures { result.items ≡ self }
    {
        self.entries
    }
}

/// A template, resolved for its settings.
#[derive(Drop)]
pub struct Template {
    /// The decision on a call that no entry decides.
    pub default: Decision,
    /// The architectures for which an engine should use the profile.
    pub architectures: Texts,
    pub entries: TemplateEntries,
}
