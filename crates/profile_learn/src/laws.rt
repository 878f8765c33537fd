ghost use Rattle.std.specs.Prelude.{◌≡◌, Some, codes};
ghost use Rattle.sys_table.specs.SysTable.{number_of};
ghost use Rattle.profile_learn.specs.Small.{small_argument};

/// The calls with a small argument, by their names.
pub fn small_arguments_are_as_named()
    ensures ioctl { number_of (codes "ioctl") ≡ Some 16 }
    ensures socket { number_of (codes "socket") ≡ Some 41 }
    ensures fcntl { number_of (codes "fcntl") ≡ Some 72 }
    ensures personality { number_of (codes "personality") ≡ Some 135 }
    ensures prctl { number_of (codes "prctl") ≡ Some 157 }
{}
