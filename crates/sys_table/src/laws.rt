ghost use Rattle.std.specs.Prelude.{◌≡◌, ◌↔◌, ◌<◌, ℕ, List, Some};
ghost use Rattle.sys_table.specs.declared.calls.CallTable.{CallTable};
ghost use Rattle.sys_table.specs.SysTable.{limit_of, name_in, name_of, number_in, number_of};

use crate::table::{NUMBER_LIMIT, TABLE_LIMIT};

/// A name has a number exactly if the number has the name. So no name and no number occurs twice.
pub fn names_and_numbers_agree()
    ensures each_way { (name : List ℕ) (number : ℕ)
        → (number_of name ≡ Some number) ↔ (name_of number ≡ Some name) }
    ensures small { (name : List ℕ) (number : ℕ)
        → number_of name ≡ Some number → number < NUMBER_LIMIT }
    ensures agree { (calls : CallTable) (name : List ℕ) (number : ℕ)
        → (number_in calls name ≡ Some number) ↔ (name_in calls number ≡ Some name) }
    ensures within { (calls : CallTable) (name : List ℕ) (number : ℕ)
        → number_in calls name ≡ Some number → number < limit_of calls }
    ensures in_table { (calls : CallTable) (name : List ℕ) (number : ℕ)
        → number_in calls name ≡ Some number → number < TABLE_LIMIT }
{}

/// A later version of Linux has the calls of an earlier one, with their numbers.
pub fn later_calls_are_added()
    ensures { (name : List ℕ) (number : ℕ) → number_of name ≡ Some number
        → number_in CallTable.Linux6_12 name ≡ Some number }
{}
