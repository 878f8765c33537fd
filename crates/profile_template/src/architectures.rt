ghost use Rattle.std.specs.Prelude.{◌≡◌, ◌&&◌, [], ◌∷◌, IfOk, codes, filter_map, length, map, nat_lt};
ghost use Rattle.std.specs.Prelude.{option_map};
ghost use Rattle.serde_json.specs.View.{view};
ghost use Rattle.json_tree.specs.Tree as kind;
ghost use Rattle.json_tree.specs.Reading.{in_order_after, refuse_if};
ghost use Rattle.profile_template.specs.Architectures.{seccomp_arch};
ghost use Rattle.profile_template.specs.declared.faults.TemplateFault.TheVariants.{Both};
ghost use Rattle.profile_template.specs.Faults.{fault_at};
ghost use Rattle.profile_template.specs.Reading.{Reads, architectures_of, chosen_family, family_at};
ghost use Rattle.profile_template.specs.Reading.{family_of, is_family};

use crate::conditions::items;
use crate::faults::TemplateFault;
use crate::names::texts;
use crate::placed::{TemplateFaultAt, under};
use crate::settings::Settings;
use json_place::{Step, optional_list, required_text};
use json_tree::{object, text};
use oci_profile::ProfileFault;
use profile_text::Texts;
use serde_json::Value;
use std::alloc::{AllocError, Global};

/// The name of an architecture in profiles, by its name in templates.
#[tactic(auto, unfolding(crate::specs::Architectures::seccomp_arch))]
pub fn seccomp_arch(name: &str) -> Option<&'static str>
    ensures { option_map (λ t. t.now) result ≡ seccomp_arch name.now }
{
    match name {
        "amd64" => Some("SCMP_ARCH_X86_64"),
        "x86" => Some("SCMP_ARCH_X86"),
        "arm" => Some("SCMP_ARCH_ARM"),
        "arm64" => Some("SCMP_ARCH_AARCH64"),
        "mips" => Some("SCMP_ARCH_MIPS"),
        "mips64" => Some("SCMP_ARCH_MIPS64"),
        "mips64n32" => Some("SCMP_ARCH_MIPS64N32"),
        "mipsel" => Some("SCMP_ARCH_MIPSEL"),
        "mipsel64" => Some("SCMP_ARCH_MIPSEL64"),
        "mipsel64n32" => Some("SCMP_ARCH_MIPSEL64N32"),
        "ppc" => Some("SCMP_ARCH_PPC"),
        "ppc64" => Some("SCMP_ARCH_PPC64"),
        "ppc64le" => Some("SCMP_ARCH_PPC64LE"),
        "riscv64" => Some("SCMP_ARCH_RISCV64"),
        "s390" => Some("SCMP_ARCH_S390"),
        "s390x" => Some("SCMP_ARCH_S390X"),
        _ => None,
    }
}

/// The architectures of a template: those of `architectures`, or the family of `archMap` headed by the
/// settings' architecture.
#[tactic(auto, unfolding(crate::specs::Reading::architectures_of))]
pub(crate) fn architectures(
    alloc: Global,
    settings: &Settings<'_>,
    tree: &Value,
) -> Result<Texts, TemplateFaultAt>
    ensures { Reads (λ t. t) result (architectures_of settings.now (view tree.now)) }
{
    let plain = items(tree, "architectures")?;
    let families = optional_list(tree, "archMap")?.unwrap_or(&[]);
    one_only(plain, families)?;
    let families = under(Step::Member("archMap"), each_family(alloc, families))?;
    let plain = texts(alloc, plain)?;
    Ok(chosen_family(seccomp_arch(settings.arch), plain, families))
}

fn one_only(plain: &[Value], families: &[Value]) -> Result<(), TemplateFaultAt>
    ensures { result ≡ refuse_if (nat_lt 0 (length plain.now) && nat_lt 0 (length families.now))
        (fault_at (codes "archMap") Both) }
{
    if !plain.is_empty() && !families.is_empty() {
        return Err(TemplateFaultAt::at("archMap", TemplateFault::Both));
    }
    Ok(())
}

#[tactic(auto, using(json_tree::proofs::After::after_more, json_tree::proofs::After::after_stops))]
fn each_family(alloc: Global, items: &[Value]) -> Result<Vec<Texts>, TemplateFaultAt>
    ensures { Reads (λ v. v.items) result (in_order_after family_at [] (map view items.now)) }
{
    let mut families = Vec::new(alloc);
    for item in items {
        let index = families.len();
        let family = under(Step::Item(index), family(alloc, item))?;
        families.push(family)?;
    }
    Ok(families)
}

#[tactic(auto, unfolding(crate::specs::Reading::family_of))]
fn family(alloc: Global, item: &Value) -> Result<Texts, TemplateFaultAt>
    ensures { Reads (λ t. t) result (family_of (view item.now)) }
{
    let wrong_type = TemplateFault::Profile(ProfileFault::WrongType);
    let tree = object(item).ok_or(TemplateFaultAt::here(wrong_type))?;
    let own = required_text(tree, "architecture")?;
    let others = items(tree, "subArchitectures")?;
    Ok(headed(alloc, own, others)?)
}

/// A text, followed by the texts of a list.
fn headed(alloc: Global, own: &str, others: &[Value]) -> Result<Texts, AllocError>
    ensures { IfOk result (λ t. t ≡ own.now ∷ filter_map kind.text (map view others.now)) }
{
    let mut family = Vec::new(alloc);
    family.push(String::from_str(alloc, own)?)?;
    for item in others {
        if let Some(found) = text(item) {
            family.push(String::from_str(alloc, found)?)?;
        }
    }
    Ok(Texts::new(family))
}

/// The first family that the architecture heads, else the plain `architectures`.
fn chosen_family(arch: Option<&str>, plain: Texts, families: Vec<Texts>) -> Texts
    ensures { result ≡ chosen_family (option_map (λ t. t.now) arch.entry) plain families.items }
{
    for family in families {
        if is_family(arch, &family) {
            return family;
        }
    }
    plain
}

fn is_family(arch: Option<&str>, family: &Texts) -> bool
    ensures { result ≡ is_family (option_map (λ t. t.now) arch.entry) family.now }
{
    match (arch, family.as_slice().first()) {
        (Some(arch), Some(own)) => own.as_str() == arch,
        _ => false,
    }
}
