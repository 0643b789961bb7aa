// What the steps of a job are made with.
ghost use Rattle.std.specs.Prelude.{◌≡◌, ◌*◌, ◌^◌};
ghost use Rattle.job.specs.Header.{Limits, radix};
ghost use Rattle.job.specs.Rules.{ScaleLimits, scale_factor, inner_unit};

use choice::Units;
use job::Header;

// A job's header and scale, and the numbers by which its digits are chosen, which follow from them.
#[derive(Clone, Copy)]
pub struct Plan {
    pub header: Header,
    pub scale: usize,
    pub units: Units,
    ghost of_job: { (units.r ≡ radix header.code) × (units.q ≡ radix header.code * scale_factor header scale) × (units.p ≡ header.p) × (2 ^ units.f ≡ inner_unit header scale) },
}

impl Plan {
    pub fn new(header: Header, scale: usize) -> Self
        requires { Limits header × ScaleLimits header scale }
        ensures { (result.header ≡ header) × (result.scale ≡ scale) }
    {
        let r = job::radix(header.code);
        let q = job::sum_factor(header, scale);
        let f = job::inner_bits(header, scale);
        let units = Units {
            r,
            q,
            p: header.p,
            f,
        };
        Plan {
            header,
            scale,
            units,
        }
    }
}
