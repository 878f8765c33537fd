ghost use Rattle.std.specs.Prelude.{◌≡◌, [], map, slice_index_or};
ghost use Rattle.std.specs.Option.{option_copied};
ghost use Rattle.sys_table.specs.SysTable.{name_in, name_of, names, number_in, number_of, place_in, text_in};

use crate::calls::CallTable;
use crate::table::{BY_NAME, NAMES};

#[tactic(auto, unfolding(crate::specs::SysTable::names))]
fn names() -> &'static [&'static str]
    ensures { map (λ name. name.now) result.now ≡ names }
{
    &NAMES
}

fn by_name() -> &'static [u16]
    ensures { result.now ≡ BY_NAME }
{
    &BY_NAME
}

// The table's text at this number: empty if no call has the number.
fn text(number: usize) -> &'static str
    ensures { result.now ≡ slice_index_or names number [] }
{
    match names().get(number) {
        Some(text) => *text,
        None => "",
    }
}

// The number of the table's call with this name.
fn place(name: &str) -> Option<u32>
    ensures { result ≡ place_in names name.now }
{
    let numbers = by_name();
    match numbers.binary_search_by(|number| text(*number as usize).cmp(name)) {
        Ok(place) => Some(u32::from(numbers[place])),
        Err(_) => None,
    }
}

impl CallTable {
    /// The name of the call with this number, if it is one of these calls.
    #[tactic(auto, unfolding(crate::specs::SysTable::name_in))]
    pub fn name(self, number: u32) -> Option<&'static str>
        ensures { option_copied result ≡ name_in self number }
    {
        let text = self.text(number);
        if text.is_empty() { None } else { Some(text) }
    }

    // The table's text at this number: empty if none of these calls has it.
    fn text(self, number: u32) -> &'static str
        ensures { result.now ≡ text_in self number }
    {
        if self.has(number) {
            text(number as usize)
        } else {
            ""
        }
    }

    /// The number of the call with this name, if it is one of these calls.
    #[tactic(auto, unfolding(crate::specs::SysTable::number_in))]
    pub fn number(self, name: &str) -> Option<u32>
        ensures { result ≡ number_in self name.now }
    {
        match place(name) {
            Some(number) if self.has(number) => Some(number),
            _ => None,
        }
    }
}

/// The name of the call of Linux 5.8 with this number, if there is one.
pub fn name(number: u32) -> Option<&'static str>
    ensures { option_copied result ≡ name_of number }
{
    CallTable::Linux5_8.name(number)
}

/// The number of the call of Linux 5.8 with this name, if there is one.
pub fn number(name: &str) -> Option<u32>
    ensures { result ≡ number_of name.now }
{
    CallTable::Linux5_8.number(name)
}
