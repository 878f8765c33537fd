use crate::holder::Holder;
use json_place::Quoted;
use std::fmt;

/// Something in a manifest that has no effect.
#[derive(Clone, Copy, Debug)]
pub enum Advice<'v> {
    /// The holder's member with this key, which is the known one but for the case of its letters.
    OtherCase(Holder, &'v str, &'static str),
    /// An annotation that named a profile up to Kubernetes 1.26.
    OldAnnotation(&'v str),
}

/// Its place, and why it has no effect.
impl fmt::Display for Advice<'_> {
    ghost use Rattle.std.specs.Prelude.{Some};
    ghost use Rattle.manifest_advice.specs.Advice.{told};
    ghost use Rattle.manifest_advice.specs.Words.{advice_text};

    ghost output = { λ advice. Some (advice_text (told advice)) };

    fn fmt<W: fmt::Write>(&self, f: &mut fmt::Formatter<W>) -> fmt::Result {
        let (place, words) = (AdvicePlace(*self), AdviceWords(*self));
        write!(f, "{place}: {words}")
    }
}

/// The place of a piece of advice: `spec.containers[0].Image`.
#[derive(Clone, Copy, Debug)]
pub struct AdvicePlace<'v>(pub Advice<'v>);

impl fmt::Display for AdvicePlace<'_> {
    ghost use Rattle.std.specs.Prelude.{Some};
    ghost use Rattle.manifest_advice.specs.Advice.{told};
    ghost use Rattle.manifest_advice.specs.Words.{advice_place};

    ghost output = { λ place. Some (advice_place (told place.0)) };

    fn fmt<W: fmt::Write>(&self, f: &mut fmt::Formatter<W>) -> fmt::Result {
        match self.0 {
            Advice::OtherCase(holder, key, _) => write!(f, "{holder}{key}"),
            Advice::OldAnnotation(key) => write!(f, "metadata.annotations[{}]", Quoted(key)),
        }
    }
}

/// Why it has no effect.
#[derive(Clone, Copy, Debug)]
pub struct AdviceWords<'v>(pub Advice<'v>);

impl fmt::Display for AdviceWords<'_> {
    ghost use Rattle.std.specs.Prelude.{Some};
    ghost use Rattle.manifest_advice.specs.Advice.{told};
    ghost use Rattle.manifest_advice.specs.Words.{advice_words};

    ghost output = { λ words. Some (advice_words (told words.0)) };

    fn fmt<W: fmt::Write>(&self, f: &mut fmt::Formatter<W>) -> fmt::Result {
        match self.0 {
            Advice::OtherCase(_, _, name) => write!(f, "ignored, the member is {name}"),
            Advice::OldAnnotation(_) => {
                f.write_str("ignored since Kubernetes 1.27, see securityContext.seccompProfile")
            }
        }
    }
}
