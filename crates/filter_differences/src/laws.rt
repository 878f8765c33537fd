ghost use Rattle.std.specs.Prelude.{◌<◌};
ghost use Rattle.call_data.specs.declared.sys_call.SysCall.{SysCall};
ghost use Rattle.sys_table.specs.declared.calls.CallTable.{CallTable};
ghost use Rattle.bpf_compare.specs.Agree.{IsOf};
ghost use Rattle.filter_differences.specs.declared.part.Part.{Part};
ghost use Rattle.filter_differences.specs.Parts.{IsPart, calls_of, first_of, last_of};

/// Two parts share no call if one ends before the other begins.
pub fn parts_are_apart()
    ensures { (known : CallTable) (part other : Part) (call : SysCall) → IsPart known part → IsPart known other
        → last_of part < first_of other → IsOf (calls_of known part) call → IsOf (calls_of known other) call → ⊥ }
{}
