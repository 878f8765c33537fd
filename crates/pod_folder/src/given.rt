ghost use Rattle.std.specs.Prelude.{◌≡◌, IfOk};
ghost use Rattle.json_tree.specs.Reading.{document};
ghost use Rattle.pod_folder.specs.Given.{gives_uid};

use json_tree::TextFault;
use std::alloc::{AllocError, Global};

/// Whether a manifest's text sets the uid of its pod.
pub fn gives_uid(alloc: Global, manifest: &[u8]) -> Result<bool, AllocError>
    ensures { IfOk result (λ given. given ≡ gives_uid (document manifest.now)) }
{
    match json_tree::read(alloc, manifest) {
        Ok(tree) => Ok(match json_tree::member(&tree, "metadata") {
            Some(metadata) => json_tree::has(metadata, "uid"),
            None => false,
        }),
        Err(TextFault::Memory) => Err(AllocError),
        Err(TextFault::NotJson) => Ok(false),
    }
}
