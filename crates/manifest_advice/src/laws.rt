ghost use Rattle.std.specs.Prelude.{◌≡◌, codes};
ghost use Rattle.manifest_advice.specs.declared.members.TheConstants.{CONTAINER_ANNOTATIONS, POD_ANNOTATION};

/// The values of this crate's constants: Kubernetes 1.26, "Well-Known Labels, Annotations and Taints".
pub fn constants_are_as_stated()
    ensures pod { POD_ANNOTATION.now ≡ codes "seccomp.security.alpha.kubernetes.io/pod" }
    ensures containers { CONTAINER_ANNOTATIONS.now ≡ codes "container.seccomp.security.alpha.kubernetes.io/" }
{}
