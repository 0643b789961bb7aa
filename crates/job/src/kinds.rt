// The kinds of a job.
ghost use Rattle.std.specs.Prelude.{◌≡◌, ◌≤◌};
ghost use Rattle.job.specs.Kind.{kind_of, count_of};
ghost use Rattle.job.specs.Kinds.{kind_named, kind_said};

#[derive(Clone, Copy, PartialEq, Eq, Debug)]
pub enum Kind {
    Polynomial,
    Rational,
    System,
    Quotients, // a sum of quotients
}

impl Kind {
    // The kind that a frame's number stands for; none for a number past the table of kinds.
    pub fn of(number: usize) -> Option<Kind>
        ensures { kind_said result ≡ kind_of number }
    {
        match number {
            0 => Some(Kind::Polynomial),
            1 => Some(Kind::Rational),
            2 => Some(Kind::System),
            3 => Some(Kind::Quotients),
            _ => None,
        }
    }

    // How many numbers it has at order n.
    pub fn count(self, n: usize) -> usize
        requires { (1 ≤ n) × (n ≤ 16) }
        ensures { result ≡ count_of (kind_named self) n }
    {
        match self {
            Kind::Polynomial => n + 1,
            Kind::Rational => 2 * n,
            Kind::System => n * (n + 1),
            Kind::Quotients => 3 * n - 2,
        }
    }
}
