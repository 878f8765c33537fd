use std::fmt;

/// How many more there are, between two texts; nothing if there are none.
#[derive(Clone, Copy)]
pub(crate) struct More {
    pub before: &'static str,
    pub count: usize,
    pub after: &'static str,
}

impl fmt::Display for More {
    ghost use Rattle.std.specs.Prelude.{Some};
    ghost use Rattle.profile_report.specs.More.{more_text};

    ghost output = { λ more. Some (more_text more.before.now more.count more.after.now) };

    #[tactic(auto, unfolding(crate::specs::More::more_text))]
    fn fmt<W: fmt::Write>(&self, f: &mut fmt::Formatter<W>) -> fmt::Result {
        let (before, count, after) = (self.before, self.count, self.after);
        if count == 0 {
            Ok(())
        } else {
            write!(f, "{before}{count}{after}")
        }
    }
}
