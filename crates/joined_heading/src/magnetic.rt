//! A magnetic heading, and what is added to it.
ghost use Rattle.std.specs.Prelude.{◌≡◌};
ghost use Rattle.readings.specs.Ranges.{Admits};
ghost use Rattle.joined_heading.specs.Sentences.{IsHeading, magnetic_sum, sum_range, true_sum};

/// A magnetic heading with its deviation and its variation, in 1e-4 radian, both positive to the east.
#[derive(Clone, Copy)]
pub(crate) struct MagneticHeading {
    pub(crate) heading: Option<i64>,
    pub(crate) deviation: Option<i64>,
    pub(crate) variation: Option<i64>,
}

impl MagneticHeading {
    /// From magnetic north.
    pub(crate) fn magnetic(&self) -> Option<i64>
        requires { IsHeading self.now }
        ensures value { result ≡ magnetic_sum self.now.heading self.now.deviation }
        ensures range { Admits sum_range result }
    {
        match self.heading {
            None => None,
            Some(heading) => Some(heading + self.deviation.unwrap_or(0)),
        }
    }

    /// From true north.
    pub(crate) fn true_north(&self) -> Option<i64>
        requires { IsHeading self.now }
        ensures { result ≡ true_sum (magnetic_sum self.now.heading self.now.deviation) self.now.variation }
    {
        match (self.magnetic(), self.variation) {
            (Some(heading), Some(variation)) => Some(heading + variation),
            _ => None,
        }
    }
}
