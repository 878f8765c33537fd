ghost use Rattle.std.specs.Prelude.{◌<◌, ◌≤◌, ◌+◌, IsTrue, length};
ghost use Rattle.std.specs.Option.{ForSome};
ghost use Rattle.manifest.specs.declared.containers.TheConstants.{MAX_CONTAINERS};
ghost use Rattle.manifest.specs.Texts as rule;

use crate::profiles::ProfileText;
use lifecycle::RestartPolicy;
use serde_json::Value;

// The parts read from a manifest, borrowed from its tree.

// The content of `metadata`.
#[derive(Clone, Copy)]
pub(crate) struct IdentityText<'v> {
    pub(crate) namespace: &'v str,
    pub(crate) name: &'v str,
    pub(crate) uid: Option<&'v str>,
    ghost namespace_fits: { IsTrue (rule.is_label namespace.now) },
    ghost name_fits: { IsTrue (rule.is_pod_name name.now) },
    ghost uid_fits: { ForSome uid (λ t. IsTrue (rule.is_uid t.now)) },
}

// The content of `spec` for the pod as a whole.
#[derive(Clone, Copy)]
pub(crate) struct TermsText<'v> {
    pub(crate) policy: RestartPolicy,
    pub(crate) grace: u64,
    pub(crate) profile: Option<ProfileText<'v>>,
}

// The lists of containers.
#[derive(Clone, Copy)]
pub(crate) struct ListsText<'v> {
    pub(crate) inits: &'v [Value],
    pub(crate) others: &'v [Value],
    ghost some: { 0 < length others.now },
    ghost few: { length inits.now + length others.now ≤ MAX_CONTAINERS },
}

#[derive(Clone, Copy)]
pub(crate) struct HeadText<'v> {
    pub(crate) identity: IdentityText<'v>,
    pub(crate) terms: TermsText<'v>,
    pub(crate) lists: ListsText<'v>,
}

// The content of a container's `securityContext`.
#[derive(Clone, Copy)]
pub(crate) struct ContextText<'v> {
    pub(crate) privileged: bool,
    pub(crate) profile: Option<ProfileText<'v>>,
}
