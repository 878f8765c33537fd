//! The objects of a manifest whose members are read.
ghost use Rattle.std.specs.Prelude.{◌≡◌, map};
ghost use Rattle.manifest_advice.specs.Advice.{known};

use std::fmt;

/// A list of containers.
#[derive(Clone, Copy, Debug, PartialEq, Eq)]
pub enum Listing {
    Init,
    Main,
}

/// An object of a manifest. A container has its list, and its place in it from 0.
#[derive(Clone, Copy, Debug, PartialEq, Eq)]
pub enum Holder {
    Manifest,
    Metadata,
    Spec,
    /// The `securityContext` of the pod.
    PodContext,
    /// The `seccompProfile` of the pod.
    PodProfile,
    Container(Listing, usize),
    /// The `securityContext` of a container.
    Context(Listing, usize),
    /// The `seccompProfile` of a container.
    Profile(Listing, usize),
}

/// The names of the members that are read: Kubernetes 1.27, PodSpec and what belongs to it.
pub(crate) fn known(holder: Holder) -> &'static [&'static str]
    ensures { map (λ name. name.now) result.now ≡ known holder }
{
    match holder {
        Holder::Manifest => &["apiVersion", "kind", "metadata", "spec"],
        Holder::Metadata => &["name", "namespace", "uid", "annotations"],
        Holder::Spec => {
            &[
                "restartPolicy",
                "terminationGracePeriodSeconds",
                "securityContext",
                "initContainers",
                "containers",
            ]
        }
        Holder::PodContext => &["seccompProfile"],
        Holder::Container(_, _) => &["name", "image", "securityContext"],
        Holder::Context(_, _) => &["privileged", "seccompProfile"],
        Holder::PodProfile | Holder::Profile(_, _) => &["type", "localhostProfile"],
    }
}

/// The list's member.
impl fmt::Display for Listing {
    ghost use Rattle.std.specs.Prelude.{Some};
    ghost use Rattle.manifest_advice.specs.Words.{listing_text};

    ghost output = { λ listing. Some (listing_text listing) };

    fn fmt<W: fmt::Write>(&self, f: &mut fmt::Formatter<W>) -> fmt::Result {
        f.write_str(match self {
            Listing::Init => "initContainers",
            Listing::Main => "containers",
        })
    }
}

/// The place of the holder, with a dot for its member: `spec.containers[0].`.
impl fmt::Display for Holder {
    ghost use Rattle.std.specs.Prelude.{Some};
    ghost use Rattle.manifest_advice.specs.Words.{holder_text};

    ghost output = { λ holder. Some (holder_text holder) };

    fn fmt<W: fmt::Write>(&self, f: &mut fmt::Formatter<W>) -> fmt::Result {
        match self {
            Holder::Manifest => Ok(()),
            Holder::Metadata => f.write_str("metadata."),
            Holder::Spec => f.write_str("spec."),
            Holder::PodContext => f.write_str("spec.securityContext."),
            Holder::PodProfile => f.write_str("spec.securityContext.seccompProfile."),
            Holder::Container(listing, index) => write!(f, "spec.{listing}[{index}]."),
            Holder::Context(listing, index) => {
                write!(f, "spec.{listing}[{index}].securityContext.")
            }
            Holder::Profile(listing, index) => {
                write!(f, "spec.{listing}[{index}].securityContext.seccompProfile.")
            }
        }
    }
}
