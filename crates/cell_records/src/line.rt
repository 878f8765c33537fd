//! The line of a record. Names and paths may have any characters, and are escaped as JSON requires.
ghost use Rattle.std.specs.Prelude.{◌≡◌, ◌++◌, IfOk, codes, string_bytes};
ghost use Rattle.serde_json.specs.Data.{string};
ghost use Rattle.serde_json.specs.Written.{compact_text};
ghost use Rattle.cell_records.specs.RecordText.{container_members, end_members, is_there, profile_value};
ghost use Rattle.cell_records.specs.RecordText.{record_text, tallies_text};

use crate::tallies::{CallKind, RecordCalls, Tally, summary};
use action::Verdict;
use call_data::NATIVE_ARCH;
use runtime_cell::{Cell, Label};
use serde_json::Value;
use std::alloc::{AllocError, Global};
use std::fmt;
use sys_table::CallTable;

/// The line of a cell's record, without its end of line: `uid` is that of the cell's sandbox. The known calls
/// are named.
pub fn record_line(
    alloc: Global,
    known: CallTable,
    uid: &str,
    cell: &Cell,
    calls: RecordCalls,
) -> Result<String, AllocError>
    ensures { IfOk result (λ text. string_bytes text ≡ record_text known calls uid.now cell.now) }
{
    let (container, end) = (
        container_members(alloc, uid, cell.label())?,
        end_members(alloc, cell)?,
    );
    let tallies = summary(alloc, cell.record(), calls)?;
    let calls = tallies_text(alloc, known, tallies.as_slice())?;
    let counts = cell.counts();
    let (performed, denied) = (counts.performed, counts.denied);
    format!(in alloc;
        "{{{container},{end},\"performed\":{performed},\"denied\":{denied},\"calls\":[{calls}]}}"
    )
}

/// The container of a cell, and its attempt.
fn container_members(alloc: Global, uid: &str, label: &Label) -> Result<String, AllocError>
    ensures { IfOk result (λ t. string_bytes t ≡ container_members uid.now label.now) }
{
    let (uid, name) = (quoted(alloc, uid)?, quoted(alloc, label.name.as_str())?);
    let attempt = label.attempt;
    format!(in alloc; "\"uid\":{uid},\"name\":{name},\"attempt\":{attempt}")
}

/// How a cell ended, and the name of its profile.
fn end_members(alloc: Global, cell: &Cell) -> Result<String, AllocError>
    ensures { IfOk result (λ t. string_bytes t ≡ end_members cell.now) }
{
    let profile = profile_value(alloc, cell.label(), has_profile(cell))?;
    let exit = Exit(cell.exit());
    format!(in alloc; "\"exit\":{exit},\"profile\":{profile}")
}

/// A text of any characters, in quotes, escaped as JSON requires.
pub fn quoted(alloc: Global, text: &str) -> Result<String, AllocError>
    ensures { IfOk result (λ t. string_bytes t ≡ compact_text (string text.now)) }
{
    Value::String(String::from_str(alloc, text)?).to_string(alloc)
}

fn has_profile(cell: &Cell) -> bool
    ensures { result ≡ is_there cell.now.making.profile }
{
    match cell.profile() {
        Some(_) => true,
        None => false,
    }
}

/// The name of a cell's profile, in quotes.
fn profile_value(alloc: Global, label: &Label, has_profile: bool) -> Result<String, AllocError>
    ensures { IfOk result (λ t. string_bytes t ≡ profile_value label.now.path has_profile) }
{
    match &label.path {
        Some(path) => {
            let path = path.as_str();
            let name = format!(in alloc; "localhost/{path}")?;
            quoted(alloc, name.as_str())
        }
        None if has_profile => quoted(alloc, "runtime/default"),
        None => quoted(alloc, "unconfined"),
    }
}

/// The exit code of a cell, if it has ended.
#[derive(Clone, Copy)]
struct Exit(Option<u8>);

impl fmt::Display for Exit {
    ghost use Rattle.std.specs.Prelude.{Some};
    ghost use Rattle.cell_records.specs.RecordText.{exit_value};

    ghost output = { λ exit. Some (exit_value exit.0) };

    fn fmt<W: fmt::Write>(&self, f: &mut fmt::Formatter<W>) -> fmt::Result {
        match self.0 {
            Some(code) => write!(f, "{code}"),
            None => f.write_str("null"),
        }
    }
}

/// The objects of tallies, separated by commas.
fn tallies_text(alloc: Global, known: CallTable, tallies: &[Tally]) -> Result<String, AllocError>
    ensures { IfOk result (λ t. string_bytes t ≡ tallies_text known tallies.now) }
{
    let mut text = String::new(alloc);
    let Some((first, others)) = tallies.split_first() else {
        return Ok(text);
    };
    let first = TallyObject(known, *first);
    write!(text, "{first}")?;
    for other in others {
        let other = TallyObject(known, *other);
        write!(text, ",{other}")?;
    }
    Ok(text)
}

/// A tally: `{"call":"ptrace","nr":101,"action":"ERRNO","data":1,"count":3,"first":7}`.
#[derive(Clone, Copy)]
struct TallyObject(CallTable, Tally);

impl fmt::Display for TallyObject {
    ghost use Rattle.std.specs.Prelude.{Some};
    ghost use Rattle.cell_records.specs.RecordText.{tally_object};

    ghost output = { λ tally. Some (tally_object tally.0 tally.1) };

    fn fmt<W: fmt::Write>(&self, f: &mut fmt::Formatter<W>) -> fmt::Result {
        let (count, first) = (self.1.count, self.1.first);
        let (call, verdict) = (
            CallMembers(self.0, self.1.kind),
            VerdictMembers(self.1.kind.verdict),
        );
        write!(
            f,
            "{{{call},{verdict},\"count\":{count},\"first\":{first}}}"
        )
    }
}

/// A call: `"call":"ptrace","nr":101`. It has its name if it is one of these calls.
#[derive(Clone, Copy)]
pub struct CallMembers(pub CallTable, pub CallKind);

impl fmt::Display for CallMembers {
    ghost use Rattle.std.specs.Prelude.{Some};
    ghost use Rattle.cell_records.specs.RecordText.{call_members};

    ghost output = { λ call. Some (call_members call.0 call.1) };

    fn fmt<W: fmt::Write>(&self, f: &mut fmt::Formatter<W>) -> fmt::Result {
        let (nr, arch) = (self.1.nr, self.1.arch);
        let (name, arch_member) = (
            NameMember {
                known: self.0,
                arch,
                nr,
            },
            ArchMember(arch),
        );
        write!(f, "{name}\"nr\":{nr}{arch_member}")
    }
}

/// A verdict: `"action":"ERRNO","data":1`.
#[derive(Clone, Copy)]
pub struct VerdictMembers(pub Verdict);

impl fmt::Display for VerdictMembers {
    ghost use Rattle.std.specs.Prelude.{Some};
    ghost use Rattle.cell_records.specs.RecordText.{verdict_members};

    ghost output = { λ verdict. Some (verdict_members verdict.0) };

    fn fmt<W: fmt::Write>(&self, f: &mut fmt::Formatter<W>) -> fmt::Result {
        let (action, ret_data) = (self.0.action, self.0.ret_data);
        write!(f, "\"action\":\"{action}\",\"data\":{ret_data}")
    }
}

/// The member `call`, if it is one of these calls.
#[derive(Clone, Copy)]
struct NameMember {
    known: CallTable,
    arch: u32,
    nr: u32,
}

impl fmt::Display for NameMember {
    ghost use Rattle.std.specs.Prelude.{Some};
    ghost use Rattle.cell_records.specs.RecordText.{name_member, table_name};

    ghost output = { λ call. Some (name_member (table_name call.known call.arch call.nr)) };

    #[tactic(auto, unfolding(crate::specs::RecordText::table_name))]
    fn fmt<W: fmt::Write>(&self, f: &mut fmt::Formatter<W>) -> fmt::Result {
        if self.arch != NATIVE_ARCH {
            return Ok(());
        }
        match self.known.name(self.nr) {
            Some(name) => write!(f, "\"call\":\"{name}\","),
            None => Ok(()),
        }
    }
}

/// The member `arch` of a call that is not one of x86-64.
#[derive(Clone, Copy)]
struct ArchMember(u32);

impl fmt::Display for ArchMember {
    ghost use Rattle.std.specs.Prelude.{Some};
    ghost use Rattle.cell_records.specs.RecordText.{arch_member};

    ghost output = { λ arch. Some (arch_member arch.0) };

    #[tactic(auto, unfolding(crate::specs::RecordText::arch_member))]
    fn fmt<W: fmt::Write>(&self, f: &mut fmt::Formatter<W>) -> fmt::Result {
        let arch = self.0;
        if arch == NATIVE_ARCH {
            return Ok(());
        }
        write!(f, ",\"arch\":{arch}")
    }
}
