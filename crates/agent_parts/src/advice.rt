//! The lines on what of a manifest has no effect.
ghost use Rattle.std.specs.Prelude.{◌≡◌, IfOk, map, string_bytes};
ghost use Rattle.agent_parts.specs.AdviceLines.{advice_line, advice_lines};

use fault_notes::ShownPath;
use manifest_advice::advice_texts;
use std::alloc::{AllocError, Global};

/// The lines on what of the manifest with these bytes has no effect, although it was probably meant to have
/// one. They have no line ends.
pub fn advice_lines(alloc: Global, path: &str, bytes: &[u8]) -> Result<Vec<String>, AllocError>
    ensures { IfOk result (λ v. map string_bytes v.items ≡ advice_lines path.now bytes.now) }
{
    lines_on(alloc, path, advice_texts(alloc, bytes)?.as_slice())
}

fn lines_on(alloc: Global, path: &str, texts: &[String]) -> Result<Vec<String>, AllocError>
    ensures { IfOk result (λ v. map string_bytes v.items
        ≡ map (advice_line path.now) (map string_bytes texts.now)) }
{
    let mut lines = Vec::new(alloc);
    for text in texts {
        lines.push(advice_line(alloc, path, text.as_str())?)?;
    }
    Ok(lines)
}

#[tactic(auto, unfolding(crate::specs::AdviceLines::advice_line))]
fn advice_line(alloc: Global, path: &str, text: &str) -> Result<String, AllocError>
    ensures { IfOk result (λ line. string_bytes line ≡ advice_line path.now text.now) }
{
    format!(in alloc; "nodeagent: {}: {text}", ShownPath(path))
}
