ghost use Rattle.std.specs.Prelude.{◌≡◌, map, option_map};
ghost use Rattle.seccheck_words.specs.Architectures.{arch_in, arch_or, architectures, name_among};
ghost use Rattle.seccheck_words.specs.Architectures.{number_among, template_arch};
ghost use Rattle.command_line.specs.Words.{told};

use call_data::NATIVE_ARCH;
use command_line::word_of;

// The names of architectures, each with its AUDIT_ARCH number of linux/audit.h. Of the names of a number the
// first is that of templates, and the other that of `uname -m`.
static ARCHITECTURES: [(&str, u32); 18] = [
    ("amd64", 0xc000_003e),
    ("x86_64", 0xc000_003e),
    ("x86", 0x4000_0003),
    ("arm", 0x4000_0028),
    ("arm64", 0xc000_00b7),
    ("aarch64", 0xc000_00b7),
    ("mips", 0x0000_0008),
    ("mips64", 0x8000_0008),
    ("mips64n32", 0xa000_0008),
    ("mipsel", 0x4000_0008),
    ("mipsel64", 0xc000_0008),
    ("mipsel64n32", 0xe000_0008),
    ("ppc", 0x0000_0014),
    ("ppc64", 0x8000_0015),
    ("ppc64le", 0xc000_0015),
    ("riscv64", 0xc000_00f3),
    ("s390", 0x0000_0016),
    ("s390x", 0x8000_0016),
];

#[tactic(auto, unfolding(crate::specs::Architectures::architectures))]
fn architectures() -> &'static [(&'static str, u32)]
    ensures { map (λ row. (row.0.now, row.1)) result.now ≡ architectures }
{
    &ARCHITECTURES
}

/// The number of the architecture that the word names, or writes as a number. No word is both.
#[tactic(auto, unfolding(crate::specs::Architectures::arch_in))]
pub(crate) fn arch_in(word: &str) -> Option<u32>
    ensures { result ≡ arch_in word.now }
{
    match number_among(architectures(), word) {
        Some(number) => Some(number),
        None => word_of(word),
    }
}

/// The number of the architecture of a call. It is x86-64 if the word is left out.
pub(crate) fn arch_or(word: Option<&str>) -> Result<u32, &str>
    ensures { told result ≡ arch_or (option_map (λ w. w.now) word.entry) }
{
    match word {
        Some(word) => arch_in(word).ok_or(word),
        None => Ok(NATIVE_ARCH),
    }
}

/// The name in templates of the architecture that the word names, or writes as a number.
#[tactic(auto, unfolding(crate::specs::Architectures::template_arch))]
pub fn template_arch(word: &str) -> Option<&'static str>
    ensures { option_map (λ name. name.now) result ≡ template_arch word.now }
{
    name_among(architectures(), arch_in(word)?)
}

fn number_among(rows: &[(&str, u32)], word: &str) -> Option<u32>
    ensures { result ≡ number_among (map (λ row. (row.0.now, row.1)) rows.now) word.now }
{
    let (row, others) = rows.split_first()?;
    if row.0 == word {
        Some(row.1)
    } else {
        number_among(others, word)
    }
}

fn name_among(rows: &'static [(&'static str, u32)], number: u32) -> Option<&'static str>
    ensures { option_map (λ name. name.now) result
        ≡ name_among (map (λ row. (row.0.now, row.1)) rows.now) number }
{
    let (row, others) = rows.split_first()?;
    if row.1 == number {
        Some(row.0)
    } else {
        name_among(others, number)
    }
}
